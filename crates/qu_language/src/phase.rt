ghost use Rattle.std.specs.Prelude.{◌≡◌, ◌≤◌, IfOk, codes};
ghost use Rattle.qu_base.specs.declared.limits.TheConstants.{LAST_CLIENT, MOST_FAULTS};
ghost use Rattle.qu_script_words.specs.Meaning.{IsReadAs};
ghost use Rattle.qu_script_words.specs.Rules.{ranged_rule, number_rule};
ghost use Rattle.qu_language.specs.Phase.{opening_script, with_line, object_said, faulty_said, next_line, event_said, is_opening_word, has_none, later_rule, body_rule, opening_line, said_rule, is_comment, comment_of, line_rule, end_rule, AreFaults, IsGood};
ghost use Rattle.qu_language.specs.Setup.{IsWithin};

use super::event::{read_event, read_live};
use super::setup::{read_faulty_line, read_object_line};
use super::{Line, Script};
use qu_base::{Bounds, LAST_CLIENT, List, MOST_FAULTS, NoMemory};
use qu_script_words::{BadKind, LineFail, Words, read_number, read_ranged};
use qu_trace::Setup;
use std::alloc::Global;

/// How far a script was read.
#[derive(Drop)]
pub enum Phase {
    /// The next line has to be `bounds B`.
    NeedsBounds,
    /// The next line has to be `seed S`.
    NeedsSeed(Bounds),
    /// The next line has to be `clients K`.
    NeedsClients(Bounds, u64),
    /// The script of the lines so far.
    Body(Script),
}

impl Phase {
    /// Reads the words of the line with this number; `live` where threads run the script. An empty line and a comment
    /// are passed over.
    #[tactic(auto, unfolding(crate::specs::Phase::line_rule))]
    pub fn read_line(
        self,
        alloc: Global,
        live: bool,
        number: u64,
        words: &mut Words<'_>,
    ) -> Result<Phase, LineFail>
        requires { IsGood self }
        ensures value { IsReadAs (λ phase. phase) result (line_rule live self number words.old) }
        ensures good { IfOk result IsGood }
    {
        if words.is_empty() {
            return Ok(self);
        }
        let word = words.next()?;
        if is_comment(word) {
            pass_comment(words)?;
            return Ok(self);
        }
        self.read_said(alloc, live, number, word, words)
    }

    /// Reads a line that says something, of which the first word was taken.
    fn read_said(
        self,
        alloc: Global,
        live: bool,
        number: u64,
        word: &[u8],
        words: &mut Words<'_>,
    ) -> Result<Phase, LineFail>
        requires { IsGood self }
        ensures value { IsReadAs (λ phase. phase) result (said_rule live self number word.now words.old) }
        ensures good { IfOk result IsGood }
    {
        match self {
            Phase::NeedsBounds => Ok(Phase::NeedsSeed(read_bounds(word, words)?)),
            Phase::NeedsSeed(bounds) => Ok(Phase::NeedsClients(bounds, read_seed(word, words)?)),
            Phase::NeedsClients(bounds, seed) => {
                let clients = read_clients(word, words)?;
                Ok(Phase::Body(opening_script(alloc, bounds, seed, clients)))
            }
            Phase::Body(script) => {
                let script = read_body(alloc, live, script, number, word, words)?;
                Ok(Phase::Body(script))
            }
        }
    }

    /// The script, where no line is left.
    pub fn finish(self) -> Result<Script, BadKind>
        requires { IsGood self }
        ensures value { result ≡ end_rule self }
        ensures limits { IfOk result (λ script. IsWithin script.setup) }
    {
        match self {
            Phase::NeedsBounds => Err(BadKind::ExpectedBounds),
            Phase::NeedsSeed(_) => Err(BadKind::ExpectedSeed),
            Phase::NeedsClients(_, _) => Err(BadKind::ExpectedClients),
            Phase::Body(script) => {
                if script.setup.kinds.is_empty() {
                    return Err(BadKind::ExpectedObject);
                }
                Ok(script)
            }
        }
    }
}

/// Whether the first word of a line makes it a comment.
fn is_comment(word: &[u8]) -> bool
    ensures { result ≡ is_comment word.now }
{
    matches!(word, [b'#', ..])
}

/// That a comment has printable ASCII characters alone.
#[tactic(auto, using(crate::proofs::CommentFacts::comment_facts, qu_script_words::proofs::ListedFacts::next_is_shorter))]
fn pass_comment(words: &mut Words<'_>) -> Result<(), BadKind>
    ensures { result ≡ comment_of words.old }
{
    'words: while !words.is_empty() {
        words.next()?;
    }
    Ok(())
}

/// `bounds B`.
fn read_bounds(word: &[u8], words: &mut Words<'_>) -> Result<Bounds, BadKind>
    ensures value { result ≡ opening_line (codes "bounds") BadKind.ExpectedBounds (ranged_rule 1 MOST_FAULTS) word.now
        words.old }
    ensures in_range { IfOk result AreFaults }
{
    if word != b"bounds".as_slice() {
        return Err(BadKind::ExpectedBounds);
    }
    let faults = read_ranged(1, u64::from(MOST_FAULTS), words.next()?)?;
    words.end()?;
    Ok(bounds_of(faults as u8))
}

fn bounds_of(faults: u8) -> Bounds
    requires { AreFaults faults }
    ensures { result ≡ faults }
{
    match Bounds::new(faults) {
        Ok(bounds) => bounds,
        Err(_) => unreachable!(),
    }
}

/// `seed S`.
fn read_seed(word: &[u8], words: &mut Words<'_>) -> Result<u64, BadKind>
    ensures { result ≡ opening_line (codes "seed") BadKind.ExpectedSeed number_rule word.now words.old }
{
    if word != b"seed".as_slice() {
        return Err(BadKind::ExpectedSeed);
    }
    let seed = read_number(words.next()?)?;
    words.end()?;
    Ok(seed)
}

/// `clients K`.
fn read_clients(word: &[u8], words: &mut Words<'_>) -> Result<u16, BadKind>
    ensures value { result ≡ opening_line (codes "clients") BadKind.ExpectedClients (ranged_rule 1 LAST_CLIENT) word.now
        words.old }
    ensures few { IfOk result (λ clients. clients ≤ LAST_CLIENT) }
{
    if word != b"clients".as_slice() {
        return Err(BadKind::ExpectedClients);
    }
    let clients = read_ranged(1, u64::from(LAST_CLIENT), words.next()?)?;
    words.end()?;
    Ok(clients as u16)
}

/// A script of three lines.
fn opening_script(alloc: Global, bounds: Bounds, seed: u64, clients: u16) -> Script
    requires faults { AreFaults bounds }
    requires few { clients ≤ LAST_CLIENT }
    ensures value { result ≡ opening_script bounds seed clients }
    ensures limits { IsWithin result.setup }
{
    let setup = Setup {
        bounds,
        seed,
        clients,
        kinds: List::new(alloc),
        liars: List::new(alloc),
    };
    Script {
        setup,
        lines: List::new(alloc),
    }
}

/// Reads a line behind the first three, of which the first word was taken.
#[tactic(auto, unfolding(crate::specs::Phase::body_rule))]
fn read_body(
    alloc: Global,
    live: bool,
    script: Script,
    number: u64,
    word: &[u8],
    words: &mut Words<'_>,
) -> Result<Script, LineFail>
    requires { IsWithin script.setup }
    ensures value { IsReadAs (λ script. script) result (body_rule live script number word.now words.old) }
    ensures limits { IfOk result (λ script. IsWithin script.setup) }
{
    if word == b"object".as_slice() {
        read_object(script, words)
    } else if has_none(&script.setup.kinds) {
        Err(LineFail::Bad(BadKind::ExpectedObject))
    } else {
        read_later(alloc, live, script, number, word, words)
    }
}

/// Reads a line that lists a faulty party or makes events.
#[tactic(auto, unfolding(crate::specs::Phase::later_rule))]
fn read_later(
    alloc: Global,
    live: bool,
    script: Script,
    number: u64,
    word: &[u8],
    words: &mut Words<'_>,
) -> Result<Script, LineFail>
    requires { IsWithin script.setup }
    ensures value { IsReadAs (λ script. script) result (later_rule live script number word.now words.old) }
    ensures limits { IfOk result (λ script. IsWithin script.setup) }
{
    if word == b"faulty".as_slice() {
        read_faulty(script, words)
    } else if is_opening_word(word) {
        Err(LineFail::Bad(BadKind::OutOfOrder))
    } else {
        add_line(alloc, live, script, number, word, words)
    }
}

/// Reads a line that makes events.
fn add_line(
    alloc: Global,
    live: bool,
    script: Script,
    number: u64,
    word: &[u8],
    words: &mut Words<'_>,
) -> Result<Script, LineFail>
    requires { IsWithin script.setup }
    ensures value { IsReadAs (λ script. script) result (event_said live script number word.now words.old) }
    ensures limits { IfOk result (λ script. IsWithin script.setup) }
{
    let line = read_next(alloc, live, &script, word, words)?;
    Ok(with_line(script, number, line)?)
}

/// Reads a line that makes events, behind those of a script.
fn read_next(
    alloc: Global,
    live: bool,
    script: &Script,
    word: &[u8],
    words: &mut Words<'_>,
) -> Result<Line, LineFail>
    ensures { IsReadAs (λ line. line) result (next_line live script.now word.now words.old) }
{
    if live {
        read_live(alloc, &script.setup, script.lines.len(), word, words)
    } else {
        read_event(alloc, &script.setup, word, words)
    }
}

/// The script with one line more.
fn with_line(mut script: Script, number: u64, line: Line) -> Result<Script, NoMemory>
    ensures { IfOk result (λ made. made ≡ with_line script number line) }
{
    script.lines.push((number, line))?;
    Ok(script)
}

/// Objects come before faulty parties and events.
fn read_object(mut script: Script, words: &mut Words<'_>) -> Result<Script, LineFail>
    requires { IsWithin script.setup }
    ensures value { IsReadAs (λ script. script) result (object_said script words.old) }
    ensures limits { IfOk result (λ script. IsWithin script.setup) }
{
    if !has_none(&script.setup.liars) || !has_none(&script.lines) {
        return Err(LineFail::Bad(BadKind::OutOfOrder));
    }
    let kind = read_object_line(script.setup.kinds.len(), words)?;
    script.setup.kinds.push(kind)?;
    Ok(script)
}

/// Faulty parties come before events.
fn read_faulty(mut script: Script, words: &mut Words<'_>) -> Result<Script, LineFail>
    requires { IsWithin script.setup }
    ensures value { IsReadAs (λ script. script) result (faulty_said script words.old) }
    ensures limits { IfOk result (λ script. IsWithin script.setup) }
{
    if !has_none(&script.lines) {
        return Err(LineFail::Bad(BadKind::OutOfOrder));
    }
    let who = read_faulty_line(&script.setup, words)?;
    script.setup.liars.push(who)?;
    Ok(script)
}

fn has_none<T>(list: &List<T>) -> bool
    ensures { result ≡ has_none list.now }
{
    list.is_empty()
}

/// Whether one of the first three lines begins with this word.
fn is_opening_word(word: &[u8]) -> bool
    ensures { result ≡ is_opening_word word.now }
{
    word == b"bounds".as_slice() || word == b"seed".as_slice() || word == b"clients".as_slice()
}
