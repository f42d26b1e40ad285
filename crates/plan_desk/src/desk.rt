// The desk and its seats.
ghost use Rattle.std.specs.Prelude.{◌≡◌, ◌≤◌, ◌++◌, [], ◌∷◌, ℕ, length, true, IfOk, IfErr};
ghost use Rattle.plan_core.specs.Law.{IsCore};
ghost use Rattle.plan_core.specs.Replies.{IsLent};
ghost use Rattle.plan_desk.specs.Lists.{Begins};
ghost use Rattle.plan_desk.specs.Rules.{leading, idle, grown, core_of};
ghost use Rattle.plan_desk.specs.Seats.{seat_of, AtRest, IsSameSeat, IsBusy, HasTurn};
ghost use Rattle.plan_desk.specs.Answers.{Answers};
ghost use Rattle.plan_desk.specs.Ends.{one_more_out, split_off, Joined, Closes};

use crate::view::{Count, GiveBack, GiveMore, Law, Merge, Part, Take, Together, View};
use atomic_table::{Seat as Place, Table};
use bd_base::NoMemory;
use bd_pieces::Refused;
use bd_tree::Tree;
use plan_core::{Core, Offer};
use std::alloc::Global;
use std::marker::Model;
use std::snapshot::Snapshot;
use std::sync::Wait;

// A sleep looks at the low half of the word.
const TWO_32: u64 = 1 << 32;

type Turn = Place<Core, View>;

/// A core behind a lock. To a contract it is its name.
#[derive(Drop)]
pub struct Desk {
    table: Table<Core, View, Snapshot<Core>, Law, Global>,
}

impl Model for Desk {
    ghost use Rattle.std.specs.Prelude.{◌≡◌};
    ghost use Rattle.atomic_table.specs.Seated.{TableId};

    ghost Value = { TableId };

    ghost view = { λ d. d.table.shared.table_id };

    ghost invariant = { λ d. (d.table.shared.table_id.words ≡ 1) × (d.table.shared.table_id.slots ≡ 1) };
}

/// A seat at a desk. It is seen as its desk, the core that this began with, the entries of the history that it has seen, the places of
/// its own accepted offers, whether it leads, and how many seats it has out.
#[derive(Drop)]
pub struct Seat {
    place: Turn,
}

impl Model for Seat {
    ghost use Rattle.std.specs.Coded.{codes};
    ghost use Rattle.bd_tree.specs.contracts.node.Node as node;
    ghost use Rattle.plan_desk.specs.Seats.{SeatState, seat_of, AtRest};

    ghost Value = { SeatState };

    ghost coded = { Prim.hlevel (codes, node.the_row.coded) };

    ghost view = { λ s. seat_of s.place.table_id s.place.me.0 };

    ghost invariant = { λ s. AtRest s.place.me };
}

/// The tree after so many entries of the history.
#[derive(Drop)]
pub struct Look {
    pub tree: Tree,
    pub place: u64,
}

impl Desk {
    /// A desk that begins with a core, and its leading seat. The core comes back for want of memory.
    pub fn begin(alloc: Global, core: Core) -> Result<(Desk, Seat), Core>
        ensures ok { IfOk result (λ r. r.1 ≡ seat_of r.0 (leading core)) }
        ensures err { IfErr result (λ c. c ≡ core) }
    {
        core.keeps();
        let mark = core.history().len() as u64 * 2;
        let about = Snapshot::of(&core);
        let mut slots = Vec::new(alloc);
        if slots.reserve(1).is_err() {
            return Err(core);
        }
        slots.push_reserved(core);
        match Table::new(alloc, &[mark], slots, &about) {
            Ok((table, place)) => Ok((Desk { table }, Seat { place })),
            Err(refused) => {
                let atomic_table::Refused { mut slots } = refused;
                match slots.pop() {
                    Some(core) => Err(core),
                    None => unreachable!(),
                }
            }
        }
    }

    /// The history's length at one step, at least what the seat has seen. It waits for nobody and takes no memory.
    pub fn newest(&self, seat: &mut Seat) -> u64
        requires { seat.old.desk ≡ self.now }
        ensures same { seat.new ≡ seat.old }
        ensures newest { length seat.old.seen ≤ result }
    {
        self.table.shared.load::<Count>(&mut seat.place, 0) / 2
    }

    /// The tree after the first `place` entries of the history, which begin with all that the seat had seen. It has then seen them.
    pub fn look<R: Wait>(&self, rt: &R, alloc: Global, seat: &mut Seat) -> Result<Look, NoMemory>
        requires { seat.old.desk ≡ self.now }
        ensures same { IsSameSeat seat.old seat.new × (seat.new.mine ≡ seat.old.mine) }
        ensures seen { Begins seat.old.seen seat.new.seen × IsCore (core_of seat.new.brought seat.new.seen) }
        ensures ok { IfOk result (λ l. (l.place ≡ length seat.new.seen) × (l.tree ≡ (core_of seat.new.brought seat.new.seen).tree)) }
    {
        self.take(rt, &mut seat.place);
        let core = seat.place.slot_mut(&self.table.shared, 0);
        core.keeps();
        let place = core.history().len() as u64;
        let tree = core.tree().try_copy(alloc);
        self.give_back(&mut seat.place, place);
        Ok(Look { tree: tree?, place })
    }

    /// The reply to an offer after all entries before it, which begin with all that the seat had seen. It has then seen them, and the
    /// offer if it was accepted, which then stands last among its own.
    pub fn offer<R: Wait>(
        &self,
        rt: &R,
        alloc: Global,
        seat: &mut Seat,
        offer: &Offer,
    ) -> Result<u64, Refused>
        requires desk { seat.old.desk ≡ self.now }
        requires lent { IsLent offer.now }
        ensures same { IsSameSeat seat.old seat.new }
        ensures reply { Answers seat.old seat.new offer.now result }
    {
        self.take(rt, &mut seat.place);
        let core = seat.place.slot_mut(&self.table.shared, 0);
        let reply = core.offer(alloc, offer);
        core.keeps();
        let place = core.history().len() as u64;
        match reply {
            Ok(k) => {
                self.give_more(&mut seat.place, offer, place);
                Ok(k)
            }
            Err(why) => {
                self.give_back(&mut seat.place, place);
                Err(Refused { place, why })
            }
        }
    }

    /// A seat that has seen as much as the leading one. It takes no memory.
    pub fn split(&self, seat: &mut Seat) -> Result<Seat, NoMemory>
        requires desk { seat.old.desk ≡ self.now }
        requires leads { seat.old.leads ≡ true }
        ensures seat { seat.new ≡ one_more_out seat.old }
        ensures given { IfOk result (λ s. s ≡ split_off seat.old) }
    {
        Ok(Seat {
            place: self.table.shared.split_seat::<Part>(&mut seat.place),
        })
    }

    /// The leading seat takes in another: the longer of the two lists that were seen, and both lists of places.
    pub fn join(&self, seat: &mut Seat, other: Seat)
        requires desk { (seat.old.desk ≡ self.now) × (other.desk ≡ self.now) }
        requires leads { seat.old.leads ≡ true }
        ensures { Joined seat.old other seat.new }
    {
        let Seat { place } = other;
        self.table
            .shared
            .join_seat::<Together>(&mut seat.place, place);
        self.table.shared.load::<Merge>(&mut seat.place, 0);
    }

    /// The core at home, where each seat that was split off was joined back. It takes no memory.
    pub fn close(self, seat: Seat) -> Core
        requires desk { seat.desk ≡ self }
        requires leads { seat.leads ≡ true }
        requires joined { seat.out ≡ 0 }
        ensures { Closes seat result }
    {
        let Desk { table } = self;
        let Seat { place } = seat;
        let mut closed = table.close_with(place);
        let core = closed.take(0);
        closed.free();
        core
    }

    // Takes the turn. The seat then holds the core.
    fn take<R: Wait>(&self, rt: &R, turn: &mut Turn)
        requires desk { turn.old.table_id ≡ self.now }
        requires rest { AtRest turn.old.me }
        ensures same { (turn.new.table_id ≡ turn.old.table_id) × (turn.new.id ≡ turn.old.id) }
        ensures took { HasTurn turn.old.me turn.new.me }
    {
        for _ in rt.forever() {
            let mark = self.table.shared.peek(0);
            if mark % 2 == 0 {
                let found = self
                    .table
                    .shared
                    .compare_exchange::<Take>(turn, 0, mark, mark + 1);
                if found == mark {
                    return;
                }
            } else {
                self.table.shared.park(rt, 0, (mark % TWO_32) as u32);
            }
        }
        unreachable!()
    }

    // Gives the turn back, with the core as it was taken.
    fn give_back(&self, turn: &mut Turn, count: u64)
        requires desk { turn.old.table_id ≡ self.now }
        requires busy { IsBusy turn.old.me (core_of turn.old.me.0.brought turn.old.me.0.seen) }
        requires count { (count ≡ length turn.old.me.0.seen) × (count ≤ 16_777_216) }
        ensures same { (turn.new.table_id ≡ turn.old.table_id) × (turn.new.id ≡ turn.old.id) }
        ensures given { turn.new.me ≡ (idle turn.old.me.0, []) }
    {
        self.table.shared.store::<GiveBack>(turn, 0, 2 * count);
        self.table.shared.wake_one(0);
    }

    // Gives the turn back, with one entry more in the core.
    fn give_more(&self, turn: &mut Turn, _offer: &Offer, count: u64)
        requires desk { turn.old.table_id ≡ self.now }
        requires busy { IsBusy turn.old.me (core_of turn.old.me.0.brought (turn.old.me.0.seen ++ _offer.now ∷ [])) }
        requires count { (count ≡ length (turn.old.me.0.seen ++ _offer.now ∷ [])) × (count ≤ 16_777_216) }
        requires legal { IsCore (core_of turn.old.me.0.brought (turn.old.me.0.seen ++ _offer.now ∷ [])) }
        ensures same { (turn.new.table_id ≡ turn.old.table_id) × (turn.new.id ≡ turn.old.id) }
        ensures given { turn.new.me ≡ (grown turn.old.me.0 (turn.old.me.0.seen ++ _offer.now ∷ []), []) }
    {
        self.table.shared.store::<GiveMore>(turn, 0, 2 * count);
        self.table.shared.wake_one(0);
    }
}
