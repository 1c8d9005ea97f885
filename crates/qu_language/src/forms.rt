/// The words that begin a line.
pub const FIRST_WORDS: &str =
    "bounds, seed, clients, object, faulty, call, deliver, flow, tick, wake, inject, fake, \
    hold, free, lose";

/// The parts that an operation can have.
const OPERATIONS: &str =
    "call C OP, OP being add O N, take O N, put O HEX, append O HEX, link O NAME N, \
    unlink O NAME, read O, cat O, find O NAME or list O, or up to four of these, a + between each \
    two, all of them updates or all queries, on objects that rise";

/// How the line that begins with this word is written, if there is one.
pub fn form_of(word: &[u8]) -> Option<&'static str> {
    setup_form(word).or(event_form(word))
}

/// Of the lines of the setup.
fn setup_form(word: &[u8]) -> Option<&'static str> {
    match word {
        b"bounds" => Some("bounds B, B from 1 to 3"),
        b"seed" => Some("seed S, S below 2^64"),
        b"clients" => Some("clients K, K from 1 to 64"),
        b"object" => Some("object I KIND, I being 0, 1, 2 .. up to 63, KIND counter, blob or dir"),
        b"faulty" => Some("faulty replica R or faulty client C, at most B replicas"),
        _ => None,
    }
}

/// Of the lines that make events.
fn event_form(word: &[u8]) -> Option<&'static str> {
    match word {
        b"call" => Some(OPERATIONS),
        b"deliver" => Some("deliver L L .."),
        b"flow" => Some("flow or flow N"),
        b"tick" => Some("tick C or tick C N, N from 1 to 20000"),
        b"wake" => Some("wake C"),
        b"inject" => Some("inject replica R HEX or inject client C HEX"),
        b"fake" => Some("fake R C HOW or fake R C HOW for R R .., HOW being show S, echo S or far"),
        b"hold" => Some("hold R R .."),
        b"free" => Some("free R R .."),
        b"lose" => Some("lose"),
        _ => None,
    }
}
