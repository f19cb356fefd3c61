//! Commits.

ghost use Rattle.std.specs.Prelude.{◌≡◌, ◌≤◌, ◌-◌, ◌^◌};
ghost use Rattle.lock_core.specs.Finished.{Finishes, PutsIn};

use crate::ending::mark_all;
use crate::machine::LockCore;
use crate::turn::Finish;
use crate::work::Room;
use std::mem::replace;

impl LockCore {
    /// Puts in what a commit that is done leaves, and marks what looked at the tables that it changes.
    fn put(&mut self, room: Option<Room>)
        ensures { PutsIn room self.old.parties.items self.new }
    {
        match room {
            None => {}
            Some(room) => {
                mark_all(&mut self.parties, room.changed);
                drop(replace(&mut self.tables, room.tables));
            }
        }
    }

    /// Makes the commit of a party whose last turn was ready, which ends so; this many bytes of the archive are used
    /// then. Where its last turn found no memory, the commit ends without a place.
    pub fn finish(&mut self, party: u32, how: Finish, used: u64)
        requires { used ≤ 2 ^ 63 - 1 }
        ensures end { self.new.tables.archive_end ≡ used }
        ensures finishes { Finishes self.old self.new party how }
    {
        let at = party as usize;
        if at >= self.parties.len() {
            self.tables.set_archive_end(used);
            return;
        }
        let room = self.parties[at].commit();
        match how {
            Finish::Done => {
                self.put(room);
                self.tables.set_archive_end(used);
            }
            Finish::Fault => {
                drop(room);
                self.tables.set_archive_end(used);
            }
            Finish::NoMemory => {
                drop(room);
                self.tables.set_archive_end(used);
            }
        }
    }
}
