//! What the types of a request say of it.

ghost use Rattle.std.specs.Prelude.{IsTrue};
ghost use Rattle.sound_requests.specs.Asked.{are_named, is_typed};

use depot_rows::model::{Command, Request};

/// The caller of a request, and what its command names, have names.
fn know_names(request: &Request)
    ensures { IsTrue (are_named request.now) }
{
    // the bytes of a name are one
    let _user = request.caller.user.as_bytes();
    let _client = request.caller.client.as_bytes();
    match &request.command {
        Ok(Command::CounterSet { name, .. }) => {
            // the bytes of a name are one
            let _name = name.as_bytes();
        }
        Ok(Command::CounterDelete { name }) => {
            // the bytes of a name are one
            let _name = name.as_bytes();
        }
        Ok(Command::Tag { label, .. }) => {
            // the bytes of a name are one
            let _label = label.as_bytes();
        }
        _ => {}
    }
}

/// The caller of a request, and what its command names, have names, and its contents are of bytes.
pub fn requests_are_typed(request: &Request)
    ensures { IsTrue (is_typed request.now) }
{
    know_names(request);
    request.contents.are_bytes();
}
