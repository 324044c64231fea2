//! The bounds of settings and their defaults. Each number is here once for code, as a macro that makes
//! numbers and help texts of it, and once for contracts, in `specs/Limits.antt`.

/// A number as it is.
#[macro_export]
macro_rules! number {
    ($number:literal) => {
        $number
    };
}

/// A help text with the bounds of a number.
#[macro_export]
macro_rules! up_to {
    ($number:literal, $text:literal) => {
        concat!($text, ", 1 to ", $number)
    };
}

/// A help text with the bounds of a number, of which the upper one is the default.
#[macro_export]
macro_rules! most_by_default {
    ($number:literal, $text:literal) => {
        concat!($text, ", 1 to ", $number, " [default: ", $number, "]")
    };
}

/// A help text with the default of a number.
#[macro_export]
macro_rules! by_default {
    ($number:literal, $text:literal) => {
        concat!($text, " [default: ", $number, "]")
    };
}

/// How many versions there are at most, and by default.
#[macro_export]
macro_rules! most_versions {
    ($with:ident $(, $text:literal)?) => {
        $crate::$with!(18446744073709551615 $(, $text)?)
    };
}

/// How many instances are held at most, and by default.
#[macro_export]
macro_rules! most_instances {
    ($with:ident $(, $text:literal)?) => {
        $crate::$with!(65536 $(, $text)?)
    };
}

/// How many recent changes are kept at most, and by default.
#[macro_export]
macro_rules! most_queue {
    ($with:ident $(, $text:literal)?) => {
        $crate::$with!(65536 $(, $text)?)
    };
}

/// How many documents the cache keeps, and how many keys a round has, at most, and by default.
#[macro_export]
macro_rules! most_entries {
    ($with:ident $(, $text:literal)?) => {
        $crate::$with!(4096 $(, $text)?)
    };
}

/// How long a recent change is kept by default, in milliseconds.
#[macro_export]
macro_rules! retention {
    ($with:ident $(, $text:literal)?) => {
        $crate::$with!(180000 $(, $text)?)
    };
}

/// How many versions there are at most, and by default.
pub const MOST_VERSIONS: u64 = most_versions!(number);

/// How many instances are held at most, and by default.
pub const MOST_INSTANCES: u64 = most_instances!(number);

/// How many recent changes are kept at most, and by default.
pub const MOST_QUEUE: u64 = most_queue!(number);

/// How many documents the cache keeps, and how many keys a round has, at most, and by default.
pub const MOST_ENTRIES: u64 = most_entries!(number);

/// How long a recent change is kept by default, in milliseconds.
pub const RETENTION: u64 = retention!(number);
