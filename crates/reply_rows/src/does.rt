//! Steps of one deed and a row.

ghost use Rattle.std.specs.Prelude.{◌≡◌, ◌∷◌, [], IfOk, Ok};
ghost use Rattle.reply_rows.specs.Made.{does};

use crate::step::Step;
use deed_list::Deeds;
use depot_rows::model::Row;
use depot_rows::paths::{DepotPath, Name, Sequence};
use depot_rows::{Deed, Held, Opening, Owing};
use std::alloc::{AllocError, Global};

/// The list of one item.
fn one<T: Drop>(alloc: Global, item: T) -> Result<Sequence<T>, AllocError>
    ensures { IfOk result (λ items. items ≡ item ∷ []) }
{
    let mut items = Sequence::new(alloc);
    items.push(item)?;
    Ok(items)
}

/// The step of deeds, if they were made, and a row.
fn done(
    alloc: Global,
    deeds: Deeds,
    made: Result<(), AllocError>,
    row: Row,
) -> Result<Step, AllocError>
    ensures { IfOk result (λ step. (made ≡ Ok record {}) × (step ≡ does deeds row)) }
{
    if let Err(error) = made {
        drop(deeds);
        drop(row);
        return Err(error);
    }
    match one(alloc, row) {
        Ok(rows) => Ok(Step {
            deeds,
            rows,
            stores: Sequence::new(alloc),
            reads: Sequence::new(alloc),
        }),
        Err(error) => {
            drop(deeds);
            Err(error)
        }
    }
}

impl Step {
    /// A client opens a file. The one error, here and below, is want of memory.
    pub fn opens(alloc: Global, opening: Opening, row: Row) -> Result<Step, AllocError>
        ensures { IfOk result (λ step. step ≡ does (Deed.Open opening ∷ []) row) }
    {
        let mut deeds = Deeds::new(alloc);
        let made = deeds.open(opening);
        done(alloc, deeds, made, row)
    }

    /// A client has a file opened no more.
    pub fn shuts(alloc: Global, held: Held, row: Row) -> Result<Step, AllocError>
        ensures { IfOk result (λ step. step ≡ does (Deed.Shut held ∷ []) row) }
    {
        let mut deeds = Deeds::new(alloc);
        let made = deeds.shut(held);
        done(alloc, deeds, made, row)
    }

    /// A client locks a file.
    pub fn holds(alloc: Global, held: Held, row: Row) -> Result<Step, AllocError>
        ensures { IfOk result (λ step. step ≡ does (Deed.Hold held ∷ []) row) }
    {
        let mut deeds = Deeds::new(alloc);
        let made = deeds.hold(held);
        done(alloc, deeds, made, row)
    }

    /// A client unlocks a file.
    pub fn frees(alloc: Global, held: Held, row: Row) -> Result<Step, AllocError>
        ensures { IfOk result (λ step. step ≡ does (Deed.Free held ∷ []) row) }
    {
        let mut deeds = Deeds::new(alloc);
        let made = deeds.free(held);
        done(alloc, deeds, made, row)
    }

    /// A client has a revision of a file, or none where the number is 0.
    pub fn gets(alloc: Global, held: Held, rev: u32, row: Row) -> Result<Step, AllocError>
        ensures { IfOk result (λ step. step ≡ does (Deed.Got held rev ∷ []) row) }
    {
        let mut deeds = Deeds::new(alloc);
        let made = deeds.got(held, rev);
        done(alloc, deeds, made, row)
    }

    /// A label has a revision of a file, or none where the number is 0.
    pub fn tags(
        alloc: Global,
        label: Name,
        path: DepotPath,
        rev: u32,
        row: Row,
    ) -> Result<Step, AllocError>
        ensures { IfOk result (λ step. step ≡ does (Deed.Tag label path rev ∷ []) row) }
    {
        let mut deeds = Deeds::new(alloc);
        let made = deeds.tag(label, path, rev);
        done(alloc, deeds, made, row)
    }

    /// A client owes a resolve.
    pub fn owes(alloc: Global, owing: Owing, row: Row) -> Result<Step, AllocError>
        ensures { IfOk result (λ step. step ≡ does (Deed.Owe owing ∷ []) row) }
    {
        let mut deeds = Deeds::new(alloc);
        let made = deeds.owe(owing);
        done(alloc, deeds, made, row)
    }
}
