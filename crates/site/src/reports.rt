//! The lines that report what came of a call.

use file_reader::FileFault;
use layout::LayoutFault;
use player::{EnrolFault, ReadFault};
use server::{AdmitFault, CARD_BYTES, PublishFault};
use server_rules::PublishReport;
use std::io;

pub(crate) fn published(rt: &HostRuntime, published: PublishReport) -> io::Result<()> {
    let epoch = published.epoch;
    let wraps = published.wraps;
    let bytes = published.bytes;
    let drawn = published.drawn;
    println!(rt; "epoch {epoch} wraps {wraps} bytes {bytes} drawn {drawn}")
}

// A refusal is reported as its number and its values.
pub(crate) fn admit_fault(rt: &HostRuntime, fault: AdmitFault) -> io::Result<()> {
    let number = fault.number();
    match fault {
        AdmitFault::SerialHeld { cradle } => println!(rt; "no {number} {cradle}"),
        AdmitFault::CradleHeld { serial } => println!(rt; "no {number} {serial}"),
        AdmitFault::NoSerial | AdmitFault::NoCradle => println!(rt; "no {number}"),
    }
}

pub(crate) fn publish_fault(rt: &HostRuntime, fault: PublishFault) -> io::Result<()> {
    let number = fault.number();
    match fault {
        PublishFault::ShortMaterial { needed }
        | PublishFault::ShortPairs { needed }
        | PublishFault::ShortFile { needed } => println!(rt; "no {number} {needed}"),
        PublishFault::NothingNoted | PublishFault::LastEpoch | PublishFault::ShortWorking => {
            println!(rt; "no {number}")
        }
    }
}

// The serial, the leaf and the stay's first epoch; the key that follows is left out.
pub(crate) fn card(rt: &HostRuntime, card: &[u8; CARD_BYTES]) -> io::Result<()> {
    let serial = u16::from_be_bytes([card[0], card[1]]);
    let leaf = card[2];
    let epoch = u32::from_be_bytes([card[3], card[4], card[5], card[6]]);
    println!(rt; "card {serial}: leaf {leaf} epoch {epoch}")
}

pub(crate) fn enrol_fault(rt: &HostRuntime, fault: EnrolFault) -> io::Result<()> {
    let number = fault.number();
    match fault {
        EnrolFault::Card { place } => println!(rt; "no {number} {place}"),
        EnrolFault::NotARing => println!(rt; "no {number}"),
    }
}

pub(crate) fn read_fault(rt: &HostRuntime, fault: ReadFault) -> io::Result<()> {
    let number = fault.number();
    match fault {
        ReadFault::ShortWorking | ReadFault::NotARing => println!(rt; "no {number}"),
        ReadFault::Layout(LayoutFault { place }) => println!(rt; "no {number} {place}"),
        ReadFault::TooLow { wanted } | ReadFault::TooHigh { wanted } => println!(rt;
            "no {number} {wanted}"
        ),
        ReadFault::File {
            epoch,
            fault: FileFault::Wrap { index, .. },
        } => println!(rt; "no {number} {index} {epoch}"),
        ReadFault::ShutOut { node } => println!(rt; "no {number} {node}"),
    }
}
