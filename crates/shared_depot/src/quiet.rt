//! The place of a command that writes nothing more.
ghost use Rattle.std.specs.Prelude.{◌≡◌, ◌≤◌, ◌-◌, ◌^◌, true, false};
ghost use Rattle.locked_tables.specs.Taken.{end_after};
ghost use Rattle.depot_commit.specs.Telling.{IsTold, IsUnwritten};
ghost use Rattle.depot_commit.specs.command_core.declared.outcome.Outcome.{Outcome};
ghost use Rattle.shared_depot.specs.Common.{IsLostPlace};
ghost use Rattle.shared_depot.specs.Asked.{MayTake};
ghost use Rattle.shared_depot.specs.Room.{IsDueAfter};
ghost use Rattle.shared_depot.specs.Sharing.{IsTakenAt};

use crate::common::CommonDepot;
use crate::serving::Serving;
use depot_commit::{Told, place_unwritten};
use depot_rows::model::{Answer, Request};
use depot_rows::paths::Sequence;
use locked_tables::{ArchiveLane, HeldTable, NoLane, OrderWords, PartyPass, Taken};
use outside_api::Disk;
use std::alloc::Global;

impl<D: Disk, N: Serving> CommonDepot<D, N> {
    /// Gives a command its place that writes nothing more. Where a content couldn't be read it is that of a
    /// fault, and it touches the archive's lane, which is held then; the archive ends where it did.
    pub(crate) fn place_quiet<'a, A: ArchiveLane<N>>(
        &mut self,
        words: &'a OrderWords<N>,
        alloc: Global,
        pass: &mut PartyPass<N>,
        archive: &mut A,
        end: u64,
        told: Told,
        request: Request,
    ) -> Answer
        requires may { MayTake N.places N.begins pass.old request }
        requires unwritten { IsUnwritten told }
        requires held { told.unread ≡ A.is_held }
        requires end { A.is_held ≡ true → end ≡ end_after N.end self.old }
        requires fits { A.is_held ≡ true → end ≤ 2 ^ 63 - 1 }
        requires tells { (outcome : Outcome) × IsTold outcome request.number told }
        requires due { told.unread ≡ false → IsDueAfter N.rows N.end N.images N.begins self.old request told }
        ensures taken { IsTakenAt N.begins pass.old pass.new request result }
        ensures archive { A.Learns self.old self.new archive.old archive.new }
        ensures lost { A.is_held ≡ true → IsLostPlace self.old self.new }
    {
        let answer = place_unwritten(&request, told);
        let fault = answer.place.fault;
        let changes = Sequence::new(alloc);
        let stores = Sequence::new(alloc);
        let taken = Taken {
            request,
            fault,
            lost: fault,
            lanes: 0,
            changes,
            end,
            stores,
        };
        let place = taken.place();
        let none: &mut [HeldTable<'a, N>] = &mut [];
        self.order
            .place(words, none, archive, &mut NoLane, pass, taken);
        Answer {
            place,
            reply: answer.reply,
        }
    }
}
