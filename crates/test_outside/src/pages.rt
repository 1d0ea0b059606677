use st_memory::Spaces;
use std::test::Fail;

#[test]
fn a_write_to_a_copy_ends_the_sharing_of_one_page(rt: HostRuntime) -> Result<(), Fail> {
    let mut spaces = Spaces::new(rt.alloc());
    let first = spaces.make(rt.alloc())?;
    assert_eq!(rt; spaces.put_word(rt.alloc(), first, 0, 7), Ok(()));
    let copy = spaces.copy_space(first)?;
    assert!(rt; spaces.shared(first, 0));
    assert!(rt; spaces.shared(copy, 0));
    assert!(rt; spaces.shared(copy, 600));
    assert_eq!(rt; spaces.put_word(rt.alloc(), copy, 0, 9), Ok(()));
    assert_eq!(rt; spaces.word(first, 0), Some(7));
    assert_eq!(rt; spaces.word(copy, 0), Some(9));
    assert!(rt; !spaces.shared(copy, 0));
    assert!(rt; !spaces.shared(copy, 511));
    assert!(rt; spaces.shared(copy, 512));
    Ok(())
}
