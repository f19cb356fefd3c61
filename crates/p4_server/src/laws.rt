//! Laws of runs that follow one another.

ghost use Rattle.std.specs.Prelude.{◌≡◌, List, ℕ, Some};
ghost use Rattle.end_lines.specs.declared.cause.Cause.TheVariants.{Done};
ghost use Rattle.p4_server.specs.Histories.{AreNext, AreOfHistories, AreOfHistory, Tells};
ghost use Rattle.p4_server.specs.Outside.{After, Before};
ghost use Rattle.p4_server.specs.Promise.{KeepsPromise};
ghost use Rattle.program_words.specs.Words.{asked, init};

use outside_api::{Clock, Disk, Doors};

/// Runs follow one another: after an `init` that ends well over an empty root, and then after each run of whatever
/// words, the disks tell what they read, and each pair of images that they may leave stands for a depot and was written
/// from the first change on. The next run, over these disks or over what a stop left of them, reads such a pair, so
/// that its replicas are promised their replies.
pub fn runs_follow_one_another<H: Doors, D: Disk, C: Clock>(clock: &C)
    ensures begun { (old_doors new_doors : H) (words : List (List ℕ)) (before : Before D H.Out)
        (after : After D H.In H.Out) →
        asked words ≡ Some init →
        KeepsPromise (record { disk = D.says; source = H.In.says; sink = H.Out.says; doors = H.says; may_give = C.says.may_give clock.now }) old_doors new_doors words before after →
        after.ended.cause ≡ Done → Tells D.says before.journal → Tells D.says before.archive →
        AreOfHistories D.says after.ended.journal after.ended.archive }
    ensures goes_on { (old_doors new_doors : H) (words : List (List ℕ)) (before : Before D H.Out)
        (after : After D H.In H.Out) →
        KeepsPromise (record { disk = D.says; source = H.In.says; sink = H.Out.says; doors = H.says; may_give = C.says.may_give clock.now }) old_doors new_doors words before after →
        AreOfHistories D.says before.journal before.archive →
        AreOfHistories D.says after.ended.journal after.ended.archive }
    ensures next { (journal archive next_journal next_archive : D) → AreOfHistories D.says journal archive →
        AreNext D.says journal archive next_journal next_archive → AreOfHistories D.says next_journal next_archive }
    ensures begins { (journal archive : D) → AreOfHistories D.says journal archive →
        AreOfHistory D.says journal archive }
{
    // the clauses alone speak of it
    let _clock = clock;
}
