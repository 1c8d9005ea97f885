//! What is known of the replicas of a run, by what their replies show of their histories.
ghost use Rattle.std.specs.Prelude.{◌≡◌, ◌<◌, ◌^◌, [], ◌++◌, map, drop, count_by, Ok, IfOk, OnOk};
ghost use Rattle.std.specs.List.{cons_option};
ghost use Rattle.qu_base.specs.Bounds.{replicas};
ghost use Rattle.qu_trace.specs.Decoded.{frame_sent};
ghost use Rattle.qu_world.specs.State.{kinds_at};
ghost use Rattle.qu_known.specs.Tracked.{undecided};
ghost use Rattle.qu_known.specs.Answers.{round_answered, letter_told, rounds_told};
ghost use Rattle.qu_claims.specs.Handled.{shown_in};
ghost use Rattle.qu_known.specs.Known.{beyond, known_on, knows, opening_row, opening_rows, row_tracked, rows_tracked, see_in, see_history, see_shown, see_from, see_letters};

use super::answers::{Answered, answered_by};
use super::tracked::Tracked;
use qu_base::{List, NoMemory, ObjectId, Party, ReplicaId};
use qu_frames::{Frame, Letter};
use qu_history::{History, Sealed};
use qu_objects::KindName;
use qu_stamp::Candidate;
use qu_trace::Setup;
use std::alloc::Global;
use std::marker::Model;

/// What letters tell: the candidates that are new, and the rounds that are answered.
#[derive(Drop)]
pub struct Learnt {
    pub news: List<Tracked>,
    pub rounds: List<Answered>,
}

/// The candidates of each object at one replica.
pub struct ShownRow {
    objects: Vec<List<Candidate>>,
}

/// By hand, so that a value is let go in one step wherever that is.
impl Drop for ShownRow {
    fn drop(self) {
        let ShownRow { objects: _ } = self;
    }
}

impl Model for ShownRow {
    ghost use Rattle.std.specs.Prelude.{List};
    ghost use Rattle.qu_stamp.specs.declared.candidate.Candidate.{Candidate};

    ghost Value = { List (List Candidate) };

    ghost view = { λ row. row.objects.items };
}

impl ShownRow {
    /// The opening candidate of each object, as their kinds stand.
    #[tactic(auto, using(crate::proofs::Rows::opening_row_more))]
    fn opening(alloc: Global, kinds: &[KindName]) -> Result<ShownRow, NoMemory>
        ensures { IfOk result (λ row. row ≡ opening_row kinds.now) }
    {
        let mut row = Vec::new(alloc);
        for _kind in kinds {
            row.push(List::one(alloc, Candidate::opening())?)?;
        }
        Ok(ShownRow { objects: row })
    }

    /// What is known of an object, nothing where the replica does not have it.
    fn known_on(&self, object: ObjectId) -> &[Candidate]
        ensures { result.now ≡ known_on object self.now }
    {
        let place = usize::from(object.0);
        if place < self.objects.len() {
            self.objects[place].as_slice()
        } else {
            &[]
        }
    }

    /// Whether the candidate of this object is among them.
    #[tactic(auto, unfolding(qu_stamp::specs::Stamp::same_stamp))]
    fn knows(&self, object: ObjectId, candidate: &Candidate) -> bool
        ensures { result ≡ knows object candidate.now self.now }
    {
        self.known_on(object).iter().any(|held| held == candidate)
    }

    /// Adds all that is known of so many objects, undecided.
    #[tactic(auto, using(crate::proofs::Rows::row_tracked_more, crate::proofs::Rows::row_tracked_none))]
    fn add_tracked(&self, objects: u16, news: &mut List<Tracked>) -> Result<(), NoMemory>
        ensures { OnOk result (news.new ≡ news.old ++ row_tracked self.now 0 objects) }
    {
        for object in 0..objects {
            let object = ObjectId(object);
            add_undecided(news, object, self.known_on(object))?;
        }
        Ok(())
    }

    /// Takes what a history shows, and adds to the news what is new of it.
    fn see(&mut self, history: &History, news: &mut List<Tracked>) -> Result<(), NoMemory>
        ensures { OnOk result (see_in history.now (self.old, news.old) ≡ (self.new, news.new)) }
    {
        let object = history.object();
        let place = usize::from(object.0);
        if place >= self.objects.len() {
            return Ok(());
        }
        let known = &mut self.objects[place];
        learn(known, news, object, history.candidates().as_slice())
    }
}

fn add_undecided(
    news: &mut List<Tracked>,
    object: ObjectId,
    candidates: &[Candidate],
) -> Result<(), NoMemory>
    ensures { OnOk result (news.new ≡ news.old ++ map (undecided object) candidates.now) }
{
    for candidate in candidates {
        news.push(Tracked {
            object,
            candidate: *candidate,
            decided: None,
        })?;
    }
    Ok(())
}

/// The candidates from this place on.
fn after(candidates: &[Candidate], place: usize) -> &[Candidate]
    ensures { result.now ≡ drop place candidates.now }
{
    if place < candidates.len() {
        &candidates[place..]
    } else {
        &[]
    }
}

/// Adds what is shown of an object beyond what is known.
fn learn(
    known: &mut List<Candidate>,
    news: &mut List<Tracked>,
    object: ObjectId,
    shown: &[Candidate],
) -> Result<(), NoMemory>
    ensures known { OnOk result (known.new ≡ known.old ++ beyond known.old shown.now) }
    ensures news { OnOk result (news.new ≡ news.old ++ map (undecided object) (beyond known.old shown.now)) }
{
    let more = after(shown, known.len());
    add_undecided(news, object, more)?;
    for candidate in more {
        known.push(*candidate)?;
    }
    Ok(())
}

/// The candidates of each replica.
pub struct Known {
    rows: Vec<ShownRow>,
}

/// By hand, so that a value is let go in one step wherever that is.
impl Drop for Known {
    fn drop(self) {
        let Known { rows: _ } = self;
    }
}

impl Model for Known {
    ghost use Rattle.std.specs.Prelude.{List};
    ghost use Rattle.qu_stamp.specs.declared.candidate.Candidate.{Candidate};

    ghost Value = { List (List (List Candidate)) };

    ghost view = { λ known. known.rows.items };
}

impl Known {
    /// What is known before the first event. A faulty replica keeps nothing.
    #[tactic(auto, using(crate::proofs::Rows::opening_rows_more, crate::proofs::Rows::opening_rows_none))]
    pub fn opening(alloc: Global, setup: &Setup) -> Result<Known, NoMemory>
        ensures { IfOk result (λ known. known ≡ opening_rows 0 (replicas setup.now.bounds) (kinds_at setup.now)) }
    {
        let mut rows = Vec::new(alloc);
        for number in 0..setup.bounds.n() {
            rows.push(ShownRow::opening(alloc, kinds_at(setup, ReplicaId(number)))?)?;
        }
        Ok(Known { rows })
    }

    /// All that is known of so many objects, undecided.
    pub fn tracked(&self, alloc: Global, objects: u16) -> Result<List<Tracked>, NoMemory>
        ensures { IfOk result (λ tracked. tracked ≡ rows_tracked objects self.now) }
    {
        let mut tracked = List::new(alloc);
        for row in self.rows.as_slice() {
            row.add_tracked(objects, &mut tracked)?;
        }
        Ok(tracked)
    }

    /// How many replicas are known to have accepted a candidate.
    pub fn accepting(&self, tracked: &Tracked) -> usize
        ensures value { result ≡ count_by (knows tracked.now.object tracked.now.candidate) self.now }
        ensures few { result < 2 ^ 63 }
    {
        self.rows
            .iter()
            .filter(|row| row.knows(tracked.object, &tracked.candidate))
            .count()
    }

    /// Takes what letters show, which are decoded to these frames, and tells what is new of it and which rounds they
    /// answer. Replies of replicas alone show something.
    #[tactic(auto, unfolding(crate::specs::Known::see_letters, crate::specs::Answers::rounds_told))]
    pub fn see_letters(
        &mut self,
        alloc: Global,
        letters: &[Letter],
        frames: &[Option<Frame>],
    ) -> Result<Learnt, NoMemory>
        requires { frames.now ≡ map frame_sent letters.now }
        ensures news { IfOk result (λ told. see_letters letters.now (self.old, []) ≡ (self.new, told.news)) }
        ensures rounds { IfOk result (λ told. told.rounds ≡ rounds_told letters.now) }
    {
        let mut news = List::new(alloc);
        let mut rounds = List::new(alloc);
        for (place, letter) in letters.iter().enumerate() {
            self.see_letter(letter, &frames[place], &mut news, &mut rounds)?;
        }
        Ok(Learnt { news, rounds })
    }

    /// Takes a letter, which tells nothing where it is no reply of a replica.
    #[tactic(auto, unfolding(crate::specs::Known::see_shown), using(crate::proofs::Frames::told_laws))]
    fn see_letter(
        &mut self,
        letter: &Letter,
        frame: &Option<Frame>,
        news: &mut List<Tracked>,
        rounds: &mut List<Answered>,
    ) -> Result<(), NoMemory>
        requires { frame.now ≡ frame_sent letter.now }
        ensures news { OnOk result
            (see_from letter.now.from letter.now.text (self.old, news.old) ≡ (self.new, news.new)) }
        ensures rounds { OnOk result (rounds.new ≡ rounds.old ++ cons_option (letter_told letter.now) []) }
    {
        match (letter.from, frame) {
            (Party::Replica(me), Some(frame)) => {
                add_answered(frame, rounds)?;
                self.see_shown(me, shown_by(frame), news)
            }
            (Party::Replica(_), None) | (Party::Client(_), _) => Ok(()),
        }
    }

    /// Takes what a replica shows.
    #[tactic(auto, unfolding(crate::specs::Known::see_shown))]
    fn see_shown(
        &mut self,
        me: ReplicaId,
        shown: &[Sealed],
        news: &mut List<Tracked>,
    ) -> Result<(), NoMemory>
        ensures { OnOk result (see_shown me shown.now (self.old, news.old) ≡ (self.new, news.new)) }
    {
        for sealed in shown {
            self.see_history(me, &sealed.history, news)?;
        }
        Ok(())
    }

    fn see_history(
        &mut self,
        me: ReplicaId,
        history: &History,
        news: &mut List<Tracked>,
    ) -> Result<(), NoMemory>
        ensures { OnOk result (see_history me history.now (self.old, news.old) ≡ (self.new, news.new)) }
    {
        let place = usize::from(me.0);
        if place >= self.rows.len() {
            return Ok(());
        }
        let row = &mut self.rows[place];
        row.see(history, news)
    }
}

/// The kinds of the objects that a replica keeps.
fn kinds_at(setup: &Setup, me: ReplicaId) -> &[KindName]
    ensures { result.now ≡ kinds_at setup.now me.0 }
{
    if setup.is_faulty(Party::Replica(me)) {
        &[]
    } else {
        setup.kinds.as_slice()
    }
}

/// What a frame shows.
fn shown_by(frame: &Frame) -> &[Sealed]
    ensures { result.now ≡ shown_in (Ok frame.now) }
{
    match frame {
        Frame::Reply { shown, .. } => shown.as_slice(),
        Frame::Request { .. } | Frame::Fetch { .. } | Frame::Fetched { .. } => &[],
    }
}

/// Adds the round that a frame answers, where it is an answer.
fn add_answered(frame: &Frame, rounds: &mut List<Answered>) -> Result<(), NoMemory>
    ensures { OnOk result (rounds.new ≡ rounds.old ++ cons_option (round_answered (Ok frame.now)) []) }
{
    if let Some(round) = answered_by(frame) {
        rounds.push(round)?;
    }
    Ok(())
}
