//! A link that loses what it brings.

use depot_path::Text;
use memory_world::{Loss, LossyLink, MemoryLink};
use outside_api::{Failed, Fetched, Link};
use std::alloc::{AllocError, Global};
use std::test::Fail;

/// Two generations of three bytes and one; the seventh call fails. The journal had two bytes within the first, three at
/// its end, and four where both are whole.
fn whole_link(alloc: Global) -> Result<MemoryLink, AllocError> {
    let calls = vec![in alloc; 7u64]?;
    let first = Text::from_bytes(alloc, b"abc")?;
    let second = Text::from_bytes(alloc, b"d")?;
    Ok(MemoryLink::new(vec![in alloc; first, second]?, calls))
}

/// What befalls the first five calls.
fn five_losses(alloc: Global) -> Result<Vec<Loss>, AllocError> {
    Ok(vec![in alloc;
        Loss::Short(0),
        Loss::Fail,
        Loss::Old(2),
        Loss::Old(3),
        Loss::Old(4),
    ]?)
}

/// Whether a fetch of up to four bytes brings just these.
fn brings(link: &mut LossyLink, generation: u32, at: u64, bytes: &[u8]) -> bool {
    let mut buffer = [0u8; 4];
    match link.fetch(generation, at, &mut buffer) {
        Ok(Fetched::Bytes(count)) => buffer.get(..count) == Some(bytes),
        _ => false,
    }
}

/// Whether a fetch is answered so.
fn answers(
    link: &mut LossyLink,
    generation: u32,
    at: u64,
    answer: Result<Fetched, Failed>,
) -> bool {
    link.fetch(generation, at, &mut [0u8; 4]) == answer
}

#[test]
fn a_lossy_link_plays_its_losses_in_order(rt: HostRuntime) -> Result<(), Fail> {
    let losses = five_losses(rt.alloc())?;
    let inner = whole_link(rt.alloc())?;
    let mut link = LossyLink::new(inner, losses);
    assert!(rt; brings(&mut link, 0, 1, b"b"));
    assert!(rt; answers(&mut link, 0, 1, Err(Failed)));
    assert!(rt; brings(&mut link, 0, 0, b"ab"));
    assert!(rt; answers(&mut link, 0, 3, Ok(Fetched::End)));
    assert!(rt; answers(&mut link, 0, 3, Ok(Fetched::Next)));
    assert!(rt; brings(&mut link, 1, 0, b"d"));
    assert!(rt; answers(&mut link, 1, 0, Err(Failed)));
    assert!(rt; answers(&mut link, 1, 1, Ok(Fetched::End)));
    drop(link);
    Ok(())
}
