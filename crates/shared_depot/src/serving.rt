//! What a run of many threads began with.
use depot_commit::Imaging;
use locked_tables::Naming;
use party_marks::Marking;
use std::marker::Brand;

/// Names what a run over a shared depot began with: its words and tables, the words of its marks, the
/// images of its archive, and what follows. Each call of a program picks all of it.
pub trait Serving: Naming + Marking + Imaging {
    ghost use Rattle.std.specs.Prelude.{ℕ, List};
    ghost use Rattle.depot_rows.specs.depot_model.Deeds.{Deed};
    ghost use Rattle.order_words.specs.Seats.{Run};
    ghost use Rattle.shared_depot.specs.Common.{Masters};

    /// From which moments of the journal's disk, and from which depots, the depot in files had run
    /// no place then.
    ghost begins: { ℕ → List Deed → Type 0 };

    /// From which depots that replicas follow it had: what had been done before, the depot, and the groups
    /// of its journal.
    ghost masters: { Masters };

    /// How often the journal's disk had failed then.
    ghost faults: { ℕ };

    /// How often the archive's disk had.
    ghost content_faults: { ℕ };

    /// The words of the marks of parties that were told that the archive's disk failed.
    ghost content_marks: { Run };
}

impl Serving for Brand {
    ghost use Rattle.std.specs.Prelude.{ℕ, List};
    ghost use Rattle.depot_rows.specs.depot_model.Deeds.{Deed};
    ghost use Rattle.order_words.specs.Seats.{no_run};

    ghost begins = { λ since start. Unit {0} };

    ghost masters = { λ past start c. Unit {0} };

    ghost faults = { 0 };

    ghost content_faults = { 0 };

    ghost content_marks = { no_run };
}
