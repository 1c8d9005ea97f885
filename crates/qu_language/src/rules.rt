use qu_script_words::BadKind;

/// What has to be so where a script is refused for this.
pub fn rule_of(kind: BadKind) -> &'static str {
    match kind {
        BadKind::TooLong => "a script has at most 16777216 bytes",
        BadKind::NotAscii => "words have printable ASCII characters alone",
        BadKind::ExpectedBounds => "the first line that says something is bounds B",
        BadKind::ExpectedSeed => "behind bounds stands seed S",
        BadKind::ExpectedClients => "behind seed stands clients K",
        BadKind::ExpectedObject => "behind clients stands object 0 KIND",
        BadKind::OutOfOrder => {
            "the setup stands first: objects 0, 1, 2 .., faulty replicas, then faulty clients, \
            each above the one before; parts of an OP are all updates or all queries, on objects \
            that rise"
        }
        BadKind::UnknownWord => "a word from a fixed list stands here",
        BadKind::WrongCount => "the line has too few words or too many",
        BadKind::BadNumber => "a number is decimal digits, below 2^64",
        BadKind::BadHex => "HEX is two hexadecimal digits for each byte, or - for none",
        BadKind::BadName => "NAME is letters, digits, '.', '_', '-', and %hh for any other byte",
        BadKind::OverLimit => "the value is outside its range",
        BadKind::NoSuchActor =>
            "a party of the setup stands here, which is correct where it has to act",
        BadKind::NoSuchObject => "an object of the setup stands here",
        BadKind::NotInLive => "threads run call lines alone, at most 1000",
        _ => rule_of_run(kind),
    }
}

/// Of those that come while the script runs.
fn rule_of_run(kind: BadKind) -> &'static str {
    match kind {
        BadKind::NoSuchLetter =>
            "letters have numbers from 1, in the order in which they were sent",
        BadKind::Busy => "the client has an operation under way",
        BadKind::NoRequest =>
            "the client sent no request yet, or the replica that is echoed did not reply to it",
        BadKind::TooManyEvents => "a run has at most 20000 events",
        _ => "the letters of a run have at most 2^31 bytes",
    }
}
