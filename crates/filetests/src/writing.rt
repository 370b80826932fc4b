//! The writer, against files that another program wrote.
use crate::sample::{KIND_1, KIND_2, change, keys_of, plan};
use file_writer::WriteFault;
use kw::KeyWrap;
use siv::Siv;

#[test]
fn writes_the_bytes_and_no_more(rt: HostRuntime) {
    let plan = plan();
    let former = keys_of(4);
    let present = keys_of(5);
    let change = change(&plan, &former, &present);
    let mut file = [7u8; 200];
    let mut work = [5u8; 512];
    let done = change.write(&KeyWrap, &mut file, &mut work);
    assert_eq!(rt; done, Ok(150));
    assert!(rt; file.starts_with(&KIND_1) && work == [0u8; 512]);
    assert!(rt; file.iter().skip(150).all(|byte| *byte == 7));
    let done = change.write(&Siv, &mut file, &mut work);
    assert_eq!(rt; done, Ok(174));
    assert!(rt; file.starts_with(&KIND_2));
    assert!(rt; file.iter().skip(174).all(|byte| *byte == 7));
}

#[test]
fn refuses_and_leaves_the_file(rt: HostRuntime) {
    let plan = plan();
    let former = keys_of(4);
    let present = keys_of(5);
    let change = change(&plan, &former, &present);
    let mut file = [7u8; 149];
    let mut few = [5u8; 511];
    let refused = change.write(&KeyWrap, &mut file, &mut few);
    assert_eq!(rt; refused, Err(WriteFault::ShortWorking));
    assert!(rt; file == [7u8; 149] && few == [5u8; 511]);
    let mut work = [5u8; 600];
    let refused = change.write(&KeyWrap, &mut file, &mut work);
    assert_eq!(rt; refused, Err(WriteFault::ShortFile { needed: 150 }));
    assert!(rt; file == [7u8; 149] && work == [0u8; 600]);
}
