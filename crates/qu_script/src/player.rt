ghost use Rattle.std.specs.Prelude.{◌≡◌, IfOk};
ghost use Rattle.qu_world.specs.Run.{IsRun, IsSetup, trace_of};
ghost use Rattle.qu_script.specs.Events.{opening_play, event_made, deliveries_made, flow_made, fake_made, ticks_made, rest_ticks, line_made, lines_made, lowest_waiting, replicas_marked, letters_lost, MakesPlay};
ghost use Rattle.qu_script.specs.Player.{world_fail_at};

use super::fake::fake;
use crate::outage::Outage;
use crate::waiting::{Begin, find_waiting, next_letter};
use qu_base::{ClientId, List, NoMemory, Party, ReplicaId};
use qu_language::Line;
use qu_script_words::{Bad, BadKind, ScriptFail};
use qu_trace::{Event, Setup, Trace};
use qu_world::{EVENT_LIMIT, World, WorldFail};
use std::alloc::Global;
use std::marker::Model;

/// The run of a script under way.
#[derive(Drop)]
pub struct Player {
    world: World,
    outage: Outage,
    /// Where the search for the next letter begins.
    next: Begin,
}

impl Model for Player {
    ghost use Rattle.qu_script.specs.Events.{Playing, playing_of};
    ghost use Rattle.qu_script.specs.Waiting.{MayBeginAt};

    ghost Value = { Playing };

    ghost view = { λ player. playing_of player.world player.outage };

    ghost invariant = { λ player. MayBeginAt player.world.setup player.world.entries player.outage.lost
        player.next };
}

impl Player {
    /// A run in which nothing happened yet.
    pub fn start(alloc: Global, setup: Setup) -> Result<Player, NoMemory>
        requires { IsSetup setup }
        ensures { IfOk result (λ player. player ≡ opening_play setup) }
    {
        let outage = Outage::none(alloc, &setup.bounds)?;
        let world = World::start(alloc, setup)?;
        Ok(Player {
            world,
            outage,
            next: Begin {
                letter: 1,
                event: 0,
            },
        })
    }

    /// The record of all events.
    pub fn into_trace(self) -> Trace
        ensures value { result ≡ trace_of self.world }
        ensures run { IsRun result }
    {
        self.world.into_trace()
    }

    /// Makes the events of some lines, up to the first line that cannot be.
    pub fn play(&mut self, alloc: Global, lines: &[(u64, Line)]) -> Result<(), ScriptFail>
        ensures { MakesPlay result self.new (lines_made self.old lines.now) }
    {
        for (number, line) in lines {
            self.make_line(alloc, *number, line)?;
        }
        Ok(())
    }

    /// Makes the events of the line with this number.
    fn make_line(&mut self, alloc: Global, number: u64, line: &Line) -> Result<(), ScriptFail>
        ensures { MakesPlay result self.new (line_made number self.old line.now) }
    {
        match line {
            Line::Call(client, op) => {
                let op = op.copy(alloc)?;
                self.make_event(number, Event::Invoke(*client, op))
            }
            Line::Deliver(letters) => self.deliver_all(number, letters.as_slice()),
            Line::Flow(Some(count)) => self.flow(number, *count),
            // One event more than a run may have ends each flow.
            Line::Flow(None) => self.flow(number, EVENT_LIMIT as u64 + 1),
            Line::Hold(replicas) => {
                self.mark(replicas.as_slice(), true);
                Ok(())
            }
            Line::Free(replicas) => {
                self.mark(replicas.as_slice(), false);
                Ok(())
            }
            Line::Lose => Ok(self.lose()?),
            Line::Tick(client, count) => self.tick(number, *client, *count),
            Line::Wake(client) => {
                let left = self.rest_left(*client);
                self.tick(number, *client, left)
            }
            Line::Inject(party, text) => {
                let text = text.copy(alloc)?;
                self.make_event(number, Event::Inject(*party, text))
            }
            Line::Fake(me, client, how, good) => {
                let text = fake(alloc, &self.world, *me, *client, *how, good)?;
                self.hand(number, *client, text)
            }
        }
    }

    /// Holds these replicas, or lets them free.
    fn mark(&mut self, replicas: &[ReplicaId], mark: bool)
        ensures { self.new ≡ replicas_marked mark self.old replicas.now }
    {
        self.outage.mark(replicas, mark);
    }

    /// Loses the letters that were sent so far and not delivered.
    fn lose(&mut self) -> Result<(), NoMemory>
        ensures { IfOk result (λ done. self.new ≡ letters_lost self.old) }
    {
        let next = next_letter(&self.world.sent(), self.outage.lost())?;
        self.outage.lose(next - 1);
        self.next = Begin {
            letter: next,
            event: 0,
        };
        Ok(())
    }

    /// Hands a made reply to a client.
    fn hand(
        &mut self,
        number: u64,
        client: ClientId,
        text: Option<List<u8>>,
    ) -> Result<(), ScriptFail>
        ensures { MakesPlay result self.new (fake_made number self.old client text) }
    {
        match text {
            Some(text) => self.make_event(number, Event::Inject(Party::Client(client), text)),
            None => Err(ScriptFail::Bad(Bad {
                line: number,
                kind: BadKind::NoRequest,
            })),
        }
    }

    /// Lets time pass at a client, so many ticks.
    fn tick(&mut self, number: u64, client: ClientId, count: u64) -> Result<(), ScriptFail>
        ensures { MakesPlay result self.new (ticks_made number client count self.old) }
    {
        for index in 0..count {
            self.make_event(number, Event::Tick(client))?;
        }
        Ok(())
    }

    /// How many ticks are left of a client's rest.
    fn rest_left(&self, client: ClientId) -> u64
        ensures { result ≡ rest_ticks self.now client }
    {
        let Some(client) = self.world.client(client) else {
            return 0;
        };
        client.rest_left().map_or(0, u64::from)
    }

    /// Delivers these letters, in this order.
    fn deliver_all(&mut self, number: u64, letters: &[u64]) -> Result<(), ScriptFail>
        ensures { MakesPlay result self.new (deliveries_made number self.old letters.now) }
    {
        for letter in letters {
            self.make_event(number, Event::Deliver(*letter))?;
        }
        Ok(())
    }

    /// Delivers the lowest letter that waits, again and again: so many times at most.
    fn flow(&mut self, number: u64, count: u64) -> Result<(), ScriptFail>
        ensures { MakesPlay result self.new (flow_made number count self.old) }
    {
        for index in 0..count {
            let Some(letter) = self.waiting()? else {
                return Ok(());
            };
            self.make_event(number, Event::Deliver(letter))?;
        }
        Ok(())
    }

    /// The lowest letter that flow takes.
    fn waiting(&mut self) -> Result<Option<u64>, NoMemory>
        ensures found { IfOk result (λ found. found ≡ lowest_waiting self.old) }
        ensures same { self.new ≡ self.old }
    {
        let setup = &self.world.trace().setup;
        let (next, found) = find_waiting(setup, &self.world.sent(), &self.outage, self.next)?;
        self.next = next;
        Ok(found)
    }

    /// Makes one event of the line with this number.
    fn make_event(&mut self, number: u64, event: Event) -> Result<(), ScriptFail>
        ensures { MakesPlay result self.new (event_made number self.old event) }
    {
        match self.world.apply(event) {
            Ok(()) => Ok(()),
            Err(fail) => Err(fail_of(number, fail)),
        }
    }
}

/// What is wrong with the line whose event does not happen for this.
fn fail_of(line: u64, fail: WorldFail) -> ScriptFail
    ensures { result ≡ world_fail_at line fail }
{
    let kind = match fail {
        WorldFail::NoSuchLetter(_) => BadKind::NoSuchLetter,
        // A script that was read names no party that its setup does not have, and calls no faulty client.
        WorldFail::NoSuchActor(_) => BadKind::NoSuchActor,
        WorldFail::Busy => BadKind::Busy,
        WorldFail::TooManyEvents => BadKind::TooManyEvents,
        WorldFail::TooManyBytes => BadKind::TooManyBytes,
        WorldFail::NoMemory => return ScriptFail::NoMemory,
    };
    ScriptFail::Bad(Bad { line, kind })
}
