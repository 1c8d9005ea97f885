ghost use Rattle.std.specs.Prelude.{◌≡◌, ◌++◌, IfOk, string_bytes};
ghost use Rattle.qu_cli.specs.Refusal.{kind_text, bad_text};

use qu_base::{List, NoMemory};
use qu_script::{Bad, BadKind};
use std::alloc::Global;

/// The words for what is wrong with a script.
fn kind_words(kind: BadKind) -> &'static str
    ensures { result.now ≡ kind_text kind }
{
    match kind {
        BadKind::TooLong => "too long",
        BadKind::NotAscii => "not ascii",
        BadKind::ExpectedBounds => "expected bounds",
        BadKind::ExpectedSeed => "expected seed",
        BadKind::ExpectedClients => "expected clients",
        BadKind::ExpectedObject => "expected object",
        BadKind::OutOfOrder => "out of order",
        BadKind::UnknownWord => "unknown word",
        BadKind::WrongCount => "wrong count",
        BadKind::BadNumber => "bad number",
        BadKind::BadHex => "bad hex",
        BadKind::BadName => "bad name",
        BadKind::OverLimit => "over limit",
        BadKind::NoSuchActor => "no such actor",
        BadKind::NoSuchObject => "no such object",
        BadKind::NotInLive => "not in live",
        BadKind::NoSuchLetter => "no such letter",
        BadKind::Busy => "busy",
        BadKind::NoRequest => "no request",
        BadKind::TooManyEvents => "too many events",
        BadKind::TooManyBytes => "too many bytes",
    }
}

/// The line that tells why a script is refused.
#[tactic(auto, unfolding(crate::specs::Refusal::bad_text))]
fn refusal_line(alloc: Global, bad: Bad) -> Result<String, NoMemory>
    ensures { IfOk result (λ text. string_bytes text ≡ bad_text bad) }
{
    let line = bad.line;
    let kind = kind_words(bad.kind);
    Ok(format!(in alloc; "line {line}: {kind}\n")?)
}

/// What is told of a script that is refused: this, and the line that tells why.
pub fn refusal_text(alloc: Global, told: List<u8>, bad: Bad) -> Result<List<u8>, NoMemory>
    ensures { IfOk result (λ text. text ≡ told ++ bad_text bad) }
{
    let line = refusal_line(alloc, bad)?;
    let mut text = told.into_vec();
    text.extend_from_slice(line.as_bytes())?;
    Ok(List::from(text))
}
