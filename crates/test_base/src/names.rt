// Names once more.
use eval_tree::Name;
use std::test::Fail;

#[test]
fn a_name_is_copied(rt: HostRuntime) -> Result<(), Fail> {
    let name = Name::new(b"answer".to_vec(rt.alloc())?);
    let copy = name.copy()?;
    assert_eq!(rt; copy.as_bytes(), b"answer".as_slice());
    assert_eq!(rt; name.as_bytes(), b"answer".as_slice());
    Ok(())
}
