//! A desk and two of its seats, asked one thing after another.
ghost use Rattle.disco_press.specs.Openings.{Opens};

use crate::asking::{ASKED, answer, look_at_all};
use disco_press::{Desk, Naming, Opening, Seat, open};
use disco_values::Settings;
use std::io;
use std::sync::Wait;

/// Asks all, and prints the answers.
fn tell_all<J: Naming, R: Wait + AllocGlobal + Print>(
    rt: &R,
    desk: &mut Desk<J>,
    seat: &mut Seat<J>,
) -> io::Result<()> {
    for asked in ASKED {
        let answer = answer(rt, rt.alloc(), desk, seat, *asked);
        println!(rt; "{answer}")?;
    }
    Ok(())
}

/// Prints what a seat sees of all apps.
fn tell_look<J: Naming, R: Print>(rt: &R, seat: &mut Seat<J>) -> io::Result<()> {
    let answer = look_at_all(seat);
    println!(rt; "{answer}")
}

/// Asks all of an open desk, and the first seat for its looks. Then the second one looks, and once the
/// desk is closed both do.
fn tell<J: Naming, R: Wait + AllocGlobal + Print>(
    rt: &R,
    mut desk: Desk<J>,
    mut one: Seat<J>,
    mut two: Seat<J>,
) -> io::Result<()> {
    let told = tell_all(rt, &mut desk, &mut one);
    let looked = tell_look(rt, &mut two);
    desk.close(rt);
    told?;
    looked?;
    tell_look(rt, &mut one)?;
    tell_look(rt, &mut two)
}

/// Asks a new desk all.
///
/// # Errors
///
/// What the host says where nothing can be printed, and the want of memory for the desk.
pub(crate) fn run<J: Naming, R: Wait + AllocGlobal + Print>(
    rt: &R,
    opening: Opening,
) -> io::Result<()>
    requires opening { Opens J.list J.name J.parts opening }
{
    let settings = Settings::standard();
    let Ok((desk, mut seats)) = open::<J, R>(rt, rt.alloc(), &settings, 2, opening) else {
        return Err(io::Error::from(io::ErrorKind::OutOfMemory));
    };
    match (seats.pop(), seats.pop()) {
        (Some(two), Some(one)) => tell(rt, desk, one, two),
        _ => {
            desk.close(rt);
            Err(io::Error::from(io::ErrorKind::NotFound))
        }
    }
}
