//! Deeds, the first first. Each kind is added by a method of its own, so that no command owns a deed: what a deed is
//! made of is small, the deed itself is not, and dropping it on the way out of a command costs the prover dear.
#![tactic(auto)]

ghost use Rattle.std.specs.Prelude.{◌≡◌, ◌++◌, ◌∷◌, [], OnOk, OnErr};

use depot_rows::forms::Form;
use depot_rows::paths::{DepotPath, Name, Sequence, Text};
use depot_rows::{Deed, Held, How, Landing, Opening, Owing, Pending, SpecKind};
use std::alloc::{AllocError, Global};
use std::marker::Model;

/// Adds items at the end. The one error is want of memory.
pub fn append<T: Drop>(list: &mut Sequence<T>, more: Sequence<T>) -> Result<(), AllocError>
    ensures { OnOk result (list.new ≡ list.old ++ more) }
{
    for item in more.into_vec() {
        list.push(item)?;
    }
    Ok(())
}

/// Deeds, the first first. The one error of each method is want of memory; where one deed is added, the deeds then stay
/// as they were.
pub struct Deeds {
    list: Sequence<Deed>,
}

impl Drop for Deeds {
    fn drop(self) {
        let Deeds { list: _ } = self;
    }
}

impl Model for Deeds {
    ghost use Rattle.std.specs.Prelude.{List};
    ghost use Rattle.depot_rows.specs.declared.deed.Deed.{Deed};

    ghost Value = { List Deed };

    ghost view = { λ deeds. deeds.list };
}

impl Deeds {
    /// No deed, which takes no memory.
    pub fn new(alloc: Global) -> Self
        ensures { result ≡ [] }
    {
        Deeds {
            list: Sequence::new(alloc),
        }
    }

    /// The deeds.
    pub fn as_slice(&self) -> &[Deed]
        ensures { result.now ≡ self.now }
    {
        self.list.as_slice()
    }

    /// Further deeds.
    pub fn append(&mut self, more: Deeds) -> Result<(), AllocError>
        ensures { OnOk result (self.new ≡ self.old ++ more) }
    {
        let Deeds { list } = more;
        append(&mut self.list, list)
    }

    /// A form is saved under a name.
    pub fn spec(&mut self, kind: SpecKind, name: Text, form: Form) -> Result<(), AllocError>
        ensures done { OnOk result (self.new ≡ self.old ++ Deed.Spec kind name form ∷ []) }
        ensures same { OnErr result (self.new ≡ self.old) }
    {
        self.list.push(Deed::Spec(kind, name, form))
    }

    /// The protections table has these lines.
    pub fn guard(&mut self, lines: Sequence<Text>) -> Result<(), AllocError>
        ensures done { OnOk result (self.new ≡ self.old ++ Deed.Guard lines ∷ []) }
        ensures same { OnErr result (self.new ≡ self.old) }
    {
        self.list.push(Deed::Guard(lines))
    }

    /// A group has these users.
    pub fn group(&mut self, name: Name, users: Sequence<Name>) -> Result<(), AllocError>
        ensures done { OnOk result (self.new ≡ self.old ++ Deed.Group name users ∷ []) }
        ensures same { OnErr result (self.new ≡ self.old) }
    {
        self.list.push(Deed::Group(name, users))
    }

    /// A counter has this value, or is gone.
    pub fn count(&mut self, name: Name, value: Option<u64>) -> Result<(), AllocError>
        ensures done { OnOk result (self.new ≡ self.old ++ Deed.Count name value ∷ []) }
        ensures same { OnErr result (self.new ≡ self.old) }
    {
        self.list.push(Deed::Count(name, value))
    }

    /// A change is pending.
    pub fn pend(&mut self, pending: Pending) -> Result<(), AllocError>
        ensures done { OnOk result (self.new ≡ self.old ++ Deed.Pend pending ∷ []) }
        ensures same { OnErr result (self.new ≡ self.old) }
    {
        self.list.push(Deed::Pend(pending))
    }

    /// A change is pending no more.
    pub fn drop_change(&mut self, change: u32) -> Result<(), AllocError>
        ensures done { OnOk result (self.new ≡ self.old ++ Deed.Drop change ∷ []) }
        ensures same { OnErr result (self.new ≡ self.old) }
    {
        self.list.push(Deed::Drop(change))
    }

    /// A client opens a file.
    pub fn open(&mut self, opening: Opening) -> Result<(), AllocError>
        ensures done { OnOk result (self.new ≡ self.old ++ Deed.Open opening ∷ []) }
        ensures same { OnErr result (self.new ≡ self.old) }
    {
        self.list.push(Deed::Open(opening))
    }

    /// A client has a file opened no more.
    pub fn shut(&mut self, held: Held) -> Result<(), AllocError>
        ensures done { OnOk result (self.new ≡ self.old ++ Deed.Shut held ∷ []) }
        ensures same { OnErr result (self.new ≡ self.old) }
    {
        self.list.push(Deed::Shut(held))
    }

    /// A client locks a file.
    pub fn hold(&mut self, held: Held) -> Result<(), AllocError>
        ensures done { OnOk result (self.new ≡ self.old ++ Deed.Hold held ∷ []) }
        ensures same { OnErr result (self.new ≡ self.old) }
    {
        self.list.push(Deed::Hold(held))
    }

    /// A client unlocks a file.
    pub fn free(&mut self, held: Held) -> Result<(), AllocError>
        ensures done { OnOk result (self.new ≡ self.old ++ Deed.Free held ∷ []) }
        ensures same { OnErr result (self.new ≡ self.old) }
    {
        self.list.push(Deed::Free(held))
    }

    /// A client has a revision of a file, or none where the number is 0.
    pub fn got(&mut self, held: Held, rev: u32) -> Result<(), AllocError>
        ensures done { OnOk result (self.new ≡ self.old ++ Deed.Got held rev ∷ []) }
        ensures same { OnErr result (self.new ≡ self.old) }
    {
        self.list.push(Deed::Got(held, rev))
    }

    /// A label has a revision of a file, or none where the number is 0.
    pub fn tag(&mut self, label: Name, path: DepotPath, rev: u32) -> Result<(), AllocError>
        ensures done { OnOk result (self.new ≡ self.old ++ Deed.Tag label path rev ∷ []) }
        ensures same { OnErr result (self.new ≡ self.old) }
    {
        self.list.push(Deed::Tag(label, path, rev))
    }

    /// A client owes a resolve.
    pub fn owe(&mut self, owing: Owing) -> Result<(), AllocError>
        ensures done { OnOk result (self.new ≡ self.old ++ Deed.Owe owing ∷ []) }
        ensures same { OnErr result (self.new ≡ self.old) }
    {
        self.list.push(Deed::Owe(owing))
    }

    /// A client paid the resolve of a file from another one.
    pub fn paid(&mut self, held: Held, from: DepotPath, how: How) -> Result<(), AllocError>
        ensures done { OnOk result (self.new ≡ self.old ++ Deed.Paid held from how ∷ []) }
        ensures same { OnErr result (self.new ≡ self.old) }
    {
        self.list.push(Deed::Paid(held, from, how))
    }

    /// A change is submitted.
    pub fn land(&mut self, landing: Landing) -> Result<(), AllocError>
        ensures done { OnOk result (self.new ≡ self.old ++ Deed.Land landing ∷ []) }
        ensures same { OnErr result (self.new ≡ self.old) }
    {
        self.list.push(Deed::Land(landing))
    }
}
