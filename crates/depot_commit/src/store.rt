//! Where the contents of commands are stored: the archive, where it is at hand.

ghost use Rattle.std.specs.Prelude.{◌≡◌, ◌<◌, ◌^◌, ℕ, List, [], Bool, true, false, IfOk, OnOk, OnErr};
ghost use Rattle.outside_api.specs.Count.{HasCause};
ghost use Rattle.depot_commit.specs.Storing.{stores_end};

use crate::storing::store_all;
use archive_file::Archive;
use depot_rows::paths::Text;
use depot_rows::records::Spot;
use outside_api::{Disk, DiskFault};

/// What the contents of commands are stored in: the archive, or none, where there is nothing to store.
pub trait Store {
    /// Whether it is an archive.
    ghost is_archive: { Bool };

    /// It is used up to a place, behind which contents can be stored.
    ghost ends_at: { Self → ℕ → Type 0 };

    /// Between two moments these contents were stored behind what was used, and count as used.
    ghost stores: { List (List ℕ) → Self → Self → Type 0 };

    /// How often its disk failed.
    ghost faults: { Self → ℕ };

    /// Stores contents one after another behind what is used, and answers where they end. They count as
    /// used then; where one couldn't be stored, none does.
    fn store(&mut self, used: u64, contents: &[Text]) -> Result<u64, DiskFault>
        requires used { ends_at self.old used }
        requires fits { used < 2 ^ 63 }
        requires some { is_archive ≡ false → contents.now ≡ [] }
        ensures end { IfOk result (λ end. end ≡ stores_end contents.now used) }
        ensures fits { IfOk result (λ end. end < 2 ^ 63) }
        ensures used { IfOk result (λ end. ends_at self.new end) }
        ensures stored { OnOk result (stores contents.now self.old self.new) }
        ensures unused { OnErr result (ends_at self.new used) }
        ensures unstored { OnErr result (stores [] self.old self.new) }
        ensures only { OnOk result (faults self.new ≡ faults self.old) }
        ensures cause { HasCause (faults self.old) (faults self.new) result };

    /// Where nothing is asked of it none were stored.
    ghost none_stored: { (store : Self) (used : ℕ) → ends_at store used → stores [] store store };

    /// What is no archive doesn't fail.
    ghost unfailing: { (store : Self) → is_archive ≡ false → faults store ≡ 0 };
}

impl<D: Disk> Store for Archive<D> {
    ghost use Rattle.std.proofs.lemmas.Bool.{true≢false};
    ghost use Rattle.archive_file.specs.Archive.{disk_of};
    ghost use Rattle.depot_commit.specs.Placing.{EndsAt, StoresBehind};
    ghost use Rattle.depot_commit.specs.StoreLaws.{nothing_stored};

    ghost is_archive = { true };

    ghost ends_at = { λ archive used. EndsAt D.says archive used };

    ghost stores = { λ contents old new. StoresBehind D.says contents old new };

    ghost faults = { λ archive. D.says.faults (disk_of archive) };

    ghost none_stored = { λ archive used at. nothing_stored D.says archive used at };

    ghost unfailing = { λ archive no. absurd (true≢false no) };

    fn store(&mut self, used: u64, contents: &[Text]) -> Result<u64, DiskFault> {
        let end = store_all(self, used, contents)?;
        self.keep(Spot { at: end, length: 0 });
        Ok(end)
    }
}

/// No archive, where there is nothing to store.
#[derive(Clone, Copy, Drop)]
pub struct NoArchive;

impl Store for NoArchive {
    ghost use Rattle.std.specs.Prelude.{refl};

    ghost is_archive = { false };

    ghost ends_at = { λ archive used. Unit {0} };

    ghost stores = { λ contents old new. contents ≡ [] };

    ghost faults = { λ archive. 0 };

    ghost none_stored = { λ archive used at. refl };

    ghost unfailing = { λ archive no. refl };

    fn store(&mut self, used: u64, _contents: &[Text]) -> Result<u64, DiskFault> {
        Ok(used)
    }
}
