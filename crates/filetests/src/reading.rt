//! The reader: each field spoilt, each place at which a file may be cut, the opening of its wraps.
use crate::sample::KIND_1;
use file_reader::{FileFault, RekeyFile};
use kw::KeyWrap;
use layout::{LayoutFault, check};
use wrap::WrapFault;

#[test]
fn each_field_is_checked(rt: HostRuntime) {
    // The place of a byte, what it is changed to, and the place that is reported.
    let spoilt = [
        (0, 0x4A, 0),
        (1, 2, 1),
        (2, 2, 2),
        (6, 0, 3),
        (4, 16, 3),
        (7, 0, 7),
        (7, 128, 7),
        (7, 1, 8),
        (7, 3, 10),
        (8, 0, 8),
        (8, 128, 8),
        (8, 1, 9),
        (9, 2, 9),
        (9, 3, 9),
        (10, 4, 10),
        (11, 2, 104),
        (11, 4, 150),
        (12, 0, 12),
        (16, 0, 13),
        (16, 6, 13),
        (17, 7, 17),
        (12, 5, 17),
        (12, 3, 17),
        (58, 0, 58),
        (108, 5, 109),
        (109, 3, 109),
    ];
    for (at, byte, place) in spoilt {
        let mut file = KIND_1;
        assert!(rt; at < 150);
        file[at] = byte;
        let fault = check(&KeyWrap, &file).err();
        assert_eq!(rt; fault, Some(LayoutFault { place }), "byte {at} made {byte}");
    }
}

#[test]
fn a_cut_file_is_reported_by_its_length(rt: HostRuntime) {
    for len in 0..150 {
        let fault = check(&KeyWrap, &KIND_1[..len]).err();
        assert_eq!(rt; fault, Some(LayoutFault { place: len }));
    }
    let mut longer = [0u8; 151];
    longer[..150].copy_from_slice(&KIND_1);
    let fault = check(&KeyWrap, &longer).err();
    assert_eq!(rt; fault, Some(LayoutFault { place: 150 }));
}

#[test]
fn wraps_open_under_their_keys(rt: HostRuntime) {
    let Ok(()) = check(&KeyWrap, &KIND_1) else {
        assert!(rt; false, "the file is refused");
        return;
    };
    let file = RekeyFile::over(&KeyWrap, &KIND_1);
    let opened_by = [
        ([0x75u8; 32], [0x35u8; 32]),
        ([0x35; 32], [0x15; 32]),
        ([0x14; 32], [0x15; 32]),
    ];
    let mut work = [5u8; 512];
    for (wrap, (key, content)) in file.wraps().zip(opened_by) {
        let mut place = [9u8; 32];
        let refused = wrap.open(&KeyWrap, [1; 32], &mut place, &mut work);
        let fault = FileFault::Wrap {
            index: wrap.index,
            fault: WrapFault::DoesNotOpen,
        };
        assert_eq!(rt; refused, Err(fault));
        assert!(rt; fault.number() == 18 && place == [9u8; 32] && work == [0u8; 512]);
        let opened = wrap.open(&KeyWrap, key, &mut place, &mut work);
        assert!(rt; opened.is_ok() && place == content);
    }
}
