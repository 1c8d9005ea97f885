use super::no_answer::NoAnswer;
use super::texts::{number, parted};
use qu_base::{ClientId, Party, ReplicaId};

/// A case: what it is called, what is done, the further words of its line, the lines below, and the stored answer.
#[derive(Clone, Copy)]
pub struct Case<'a> {
    pub name: &'a str,
    pub command: &'a str,
    pub words: &'a str,
    pub lines: &'a str,
    pub answer: &'a str,
}

impl<'a> Case<'a> {
    /// The case of a text `NAME COMMAND WORDS`, a line `# REASON`, its lines, a line `----` and its answer. None where
    /// one of these is missing.
    pub fn of(text: &'a str) -> Option<Case<'a>> {
        let (asked, answer) = text.split_once("----\n")?;
        let (line, below) = asked.split_once('\n')?;
        let (reason, lines) = below.split_once('\n')?;
        if !reason.starts_with("# ") {
            return None;
        }
        let (name, rest) = parted(line, " ");
        let (command, words) = parted(rest, " ");
        Some(Case {
            name,
            command,
            words,
            lines,
            answer: answer.trim_end(),
        })
    }

    /// The word at a place behind the command, empty where there is none.
    pub fn word(&self, place: usize) -> &'a str {
        self.words.split_whitespace().nth(place).unwrap_or("")
    }

    pub fn number(&self, place: usize) -> Result<u64, NoAnswer> {
        number(self.word(place))
    }

    pub fn short(&self, place: usize) -> Result<u16, NoAnswer> {
        self.word(place).parse::<u16>().or(Err(NoAnswer::Number))
    }

    pub fn byte(&self, place: usize) -> Result<u8, NoAnswer> {
        self.word(place).parse::<u8>().or(Err(NoAnswer::Number))
    }

    pub fn party(&self, place: usize) -> Result<Party, NoAnswer> {
        party(self.word(place))
    }

    /// The lines before the first line `at ..`.
    pub fn base(&self) -> &'a str {
        let (base, _) = parted(self.lines, "\nat ");
        base
    }
}

/// The party of a word, as `r0` or `c1`.
pub fn party(word: &str) -> Result<Party, NoAnswer> {
    if let Some(number) = word.strip_prefix('r') {
        return Ok(Party::Replica(ReplicaId(number.parse::<u8>()?)));
    }
    match word.strip_prefix('c') {
        Some(number) => Ok(Party::Client(ClientId(number.parse::<u16>()?))),
        None => Err(NoAnswer::Word),
    }
}
