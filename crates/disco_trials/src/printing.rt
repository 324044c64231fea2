//! Prints the result of a trial.
use std::fmt::{Debug, Display};
use std::io;

/// Prints the name of a trial with its result: `yes`, `no`, or why it ended early. Answers whether it
/// went well.
///
/// # Errors
///
/// What the host says where nothing can be printed.
pub fn told<R: Print, E: Display + Drop>(
    rt: &R,
    name: &str,
    came: Result<bool, E>,
) -> io::Result<bool> {
    match &came {
        Ok(true) => println!(rt; "{name}: yes")?,
        Ok(false) => println!(rt; "{name}: no")?,
        Err(error) => println!(rt; "{name}: {error}")?,
    }
    Ok(matches!(came, Ok(true)))
}

/// Prints the name of a trial with its result: `yes` where it is what was wanted, else `no` with both,
/// or why it ended early. Answers whether it is what was wanted.
///
/// # Errors
///
/// What the host says where nothing can be printed.
pub fn compared<R: Print, T: PartialEq + Debug + Drop, E: Display + Drop>(
    rt: &R,
    name: &str,
    wanted: &T,
    came: Result<T, E>,
) -> io::Result<bool> {
    let well = matches!(&came, Ok(came) if came == wanted);
    match &came {
        Ok(_) if well => println!(rt; "{name}: yes")?,
        Ok(came) => println!(rt; "{name}: no, wanted {wanted:?}, came {came:?}")?,
        Err(error) => println!(rt; "{name}: {error}")?,
    }
    Ok(well)
}

/// Prints the name of a trial with its result, as [`told`] does. Answers whether it went well and that
/// could be printed.
pub fn is_told<R: Print, E: Display + Drop>(rt: &R, name: &str, came: Result<bool, E>) -> bool {
    matches!(told(rt, name, came), Ok(true))
}
