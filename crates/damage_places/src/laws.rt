//! The law of the places at which files are damaged.

ghost use Rattle.std.specs.Prelude.{◌≡◌, ◌<◌, ◌^◌, ℕ, length};
ghost use Rattle.outside_api.specs.Disk.{Files};
ghost use Rattle.recovery.specs.Damage.{IsDamage};
ghost use Rattle.recovery.specs.declared.fault.DepotDisk.{DepotDisk};

/// The files of a depot, none of which has 2^63 bytes or more, are damaged at one place at most: of one disk, one file
/// and one byte.
pub fn damaged_files_have_one_place()
    ensures { (journal archive : Files) (disk other_disk : DepotDisk) (file other_file place other_place : ℕ) →
        ((n : ℕ) → length (journal n) < 2 ^ 63) →
        IsDamage journal archive disk file place → IsDamage journal archive other_disk other_file other_place →
        (disk ≡ other_disk) × (file ≡ other_file) × (place ≡ other_place) }
{}
