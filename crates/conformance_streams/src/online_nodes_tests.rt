//! The edges of a network: the room that is made for what is to come.
use online_nodes::Edges;
use std::test::Fail;

#[test]
fn room_is_made_for_what_was_asked(rt: HostRuntime) -> Result<(), Fail> {
    let mut edges = Edges::new(rt.alloc(), 2)?;
    edges.reserve(2)?;
    assert!(&rt; edges.spare() >= 2);
    Ok(())
}
