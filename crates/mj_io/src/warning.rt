use std::io;

/// Says on standard error why the system refused something, in one line. A program may go on where that fails, so
/// nothing is claimed of the line.
pub fn warn<E: Eprint>(rt: &E, place: &str, error: &io::Error) {
    let place = place.escape_debug();
    let _ = eprintln!(rt; "james: {place}: {error}");
}
