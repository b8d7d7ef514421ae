//! What no clause says: that quotients and texts come out as worked by hand, with ample memory.
use crate::{class_numbers, quotient_text};
use std::test::Fail;
use structure_parser::read_file;

#[test]
fn a_system_is_printed_in_order_with_each_member_once(rt: HostRuntime) -> Result<(), Fail> {
    let alloc = rt.alloc();
    let file = b"P X\n# a note\nb : { c ,a, c }\r\na:{}\nc: {b}";
    match read_file(alloc, file) {
        Ok(c) => {
            let text = quotient_text(alloc, &c)?;
            assert_eq!(rt;
                text.as_slice(),
                b"P X\nb: {a, c}\na: {}\nc: {b}\n".as_slice()
            );
        }
        Err(_) => assert!(rt; false),
    }
    Ok(())
}

#[test]
fn classes_are_numbered_by_their_first_states(rt: HostRuntime) -> Result<(), Fail> {
    let labels = class_numbers(rt.alloc(), &[0, 0, 2, 0, 2])?;
    assert_eq!(rt; labels.as_slice(), [0, 0, 1, 0, 1].as_slice());
    Ok(())
}
