//! One number for many answers.
use file_reader::FileFault;
use player::ReadFault;
use rolls::Sum;

/// Takes a reading's answer in: 0, or the refusal's number and its values.
pub(crate) fn add_read(sum: &mut Sum, fault: Option<ReadFault>) {
    let Some(fault) = fault else {
        sum.add(0);
        return;
    };
    sum.add(usize::from(fault.number()));
    match fault {
        ReadFault::ShortWorking | ReadFault::NotARing => {}
        ReadFault::Layout(fault) => sum.add(fault.place),
        ReadFault::TooLow { wanted } | ReadFault::TooHigh { wanted } => sum.add(wanted as usize),
        ReadFault::File {
            epoch,
            fault: FileFault::Wrap { index, .. },
        } => {
            sum.add(index);
            sum.add(epoch as usize);
        }
        ReadFault::ShutOut { node } => sum.add(usize::from(node)),
    }
}

/// The sum of these bytes.
pub(crate) fn sum_of(bytes: &[u8]) -> usize {
    let mut sum = Sum { value: 0 };
    sum.add_all(bytes);
    sum.value
}
