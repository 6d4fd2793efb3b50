//! Equality by elements.
use lists::{Items, Text};
use std::test::Fail;

#[test]
fn equal_by_elements(rt: HostRuntime) -> Result<(), Fail> {
    let few = Items::new([1u64, 2].to_vec(rt.alloc())?);
    let same = Items::new([1u64, 2].to_vec(rt.alloc())?);
    let more = Items::new([1u64, 2, 3].to_vec(rt.alloc())?);
    assert_eq!(rt; few, same);
    assert_ne!(rt; few, more);
    let name = Text::new(String::from_str(rt.alloc(), "poet")?);
    let other = Text::new(String::from_str(rt.alloc(), "poem")?);
    assert_ne!(rt; name, other);
    Ok(())
}

#[test]
fn items_change_in_place(rt: HostRuntime) -> Result<(), Fail> {
    let mut items = Items::new([1u64, 2].to_vec(rt.alloc())?);
    items.push(3)?;
    items.as_mut_slice()[0] = 4;
    assert_eq!(rt; items.as_slice(), [4u64, 2, 3].as_slice());
    Ok(())
}
