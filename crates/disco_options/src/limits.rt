//! The bounds and the defaults of options that aren't settings. Each number is here once for code, as
//! in `disco_values`, and once for contracts, in `specs/Options.antt`.

/// The upper bound of a number that has a default too.
macro_rules! most {
    ($most:literal, $default:literal) => {
        $most
    };
}

/// The default of a number that has an upper bound too.
macro_rules! default {
    ($most:literal, $default:literal) => {
        $default
    };
}

/// A help text with the bounds of a number and its default.
macro_rules! bounds_and_default {
    ($most:literal, $default:literal, $text:literal) => {
        concat!($text, ", 1 to ", $most, " [default: ", $default, "]")
    };
}

/// A port.
macro_rules! most_port {
    ($with:ident $(, $text:literal)?) => {
        disco_values::$with!(65535 $(, $text)?)
    };
}

/// Workers of a server.
macro_rules! workers {
    ($with:ident $(, $text:literal)?) => {
        $with!(64, 4 $(, $text)?)
    };
}

/// Connections of a server that are open at once.
macro_rules! open {
    ($with:ident $(, $text:literal)?) => {
        $with!(65536, 16384 $(, $text)?)
    };
}

/// Threads that register, and clients, of a fleet.
macro_rules! most_threads {
    ($with:ident $(, $text:literal)?) => {
        disco_values::$with!(64 $(, $text)?)
    };
}

/// The pause between two refreshes, in milliseconds: that of Eureka's clients by default.
macro_rules! pause {
    ($with:ident $(, $text:literal)?) => {
        disco_values::$with!(30000 $(, $text)?)
    };
}

pub(crate) use bounds_and_default;
pub(crate) use most_port;
pub(crate) use most_threads;
pub(crate) use open;
pub(crate) use pause;
pub(crate) use workers;

/// The greatest port.
pub const MOST_PORT: u64 = most_port!(number);

/// How many workers a server has at most.
pub const MOST_WORKERS: u64 = workers!(most);

/// How many workers a server has by default.
pub const WORKERS: u64 = workers!(default);

/// How many connections of a server are open at once, at most.
pub const MOST_OPEN: u64 = open!(most);

/// How many of them by default.
pub const OPEN: u64 = open!(default);

/// How many threads of one kind a fleet has at most: writers, and clients.
pub const MOST_THREADS: u64 = most_threads!(number);

/// The pause between two refreshes by default, in milliseconds.
pub const PAUSE: u64 = pause!(number);
