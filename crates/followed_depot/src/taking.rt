//! Taking commands.

ghost use Rattle.std.specs.Prelude.{◌≡◌};
ghost use Rattle.archive_file.specs.Archive.{disk_of as archive_disk_of};
ghost use Rattle.disk_journal.specs.Stands.{disk_of};
ghost use Rattle.followed_depot.specs.Following.{HasRunFollowed};
ghost use Rattle.replica_turns.specs.serial_depot.Running.{CanTake};

use crate::following::Following;
use depot_rows::model::{Answer, Request};
use outside_api::{Disk, Gate};
use serial_depot::SerialDepot;
use session_loop::Taker;
use std::alloc::{AllocError, Global};
use std::marker::PhantomData;

/// A depot in files that takes commands, and stays one that replicas may follow.
#[derive(Drop)]
pub struct FollowedDepot<D: Disk, F: Following> {
    /// The depot.
    pub depot: SerialDepot<D>,
    began: PhantomData<F>,
}

impl<D: Disk, F: Following> FollowedDepot<D, F> {
    /// The depot, as it is.
    pub fn new(depot: SerialDepot<D>) -> Self
        ensures { result.depot ≡ depot }
    {
        FollowedDepot {
            depot,
            began: PhantomData,
        }
    }
}

impl<D: Disk, F: Following> Taker for FollowedDepot<D, F> {
    ghost can_take = { λ followed. CanTake D.says followed.depot };

    ghost has_run = { λ followed since start places. HasRunFollowed D.says F.masters followed.depot since start places };

    ghost unwritten = { λ old new. (new.depot.journal ≡ old.depot.journal) × (new.depot.tables ≡ old.depot.tables) };

    ghost untouched = { λ old new. new.depot ≡ old.depot };

    ghost faults = { λ followed. D.says.faults (disk_of followed.depot.journal) };

    ghost content_faults = { λ followed. D.says.faults (archive_disk_of followed.depot.archive) };

    fn take<G: Gate>(
        &mut self,
        alloc: Global,
        gate: &G,
        request: Request,
    ) -> Result<Answer, AllocError> {
        let answer = self.depot.take_request(alloc, gate, &request);
        drop(request);
        answer
    }
}
