//! The texts of the program's faults.

use crate::kit::expect;
use lpr_client::SendFault;
use word_actions::{ActionFault, PlacesFault};

#[test]
fn texts_of_faults(rt: HostRuntime) {
    let alloc = rt.alloc();
    let text = String::from_str(alloc, "printer 9 isn't there: 9=file:x");
    let text = text.expect(&rt, "memory");
    let faults: [(ActionFault, &[u8]); 11] = [
        (
            ActionFault::Send(SendFault::Refused(1)),
            b"fault 60 Refused 1",
        ),
        (ActionFault::Send(SendFault::Cut), b"fault 61 Cut"),
        (
            ActionFault::Send(SendFault::ReadFault),
            b"fault 62 ReadFault",
        ),
        (
            ActionFault::Send(SendFault::WriteFault),
            b"fault 63 WriteFault",
        ),
        (ActionFault::Send(SendFault::Memory), b"fault 12 Memory"),
        (ActionFault::Memory, b"fault 12 Memory"),
        (ActionFault::Network, b"fault 72 Network"),
        (
            ActionFault::Run(lpd_script::Fault::WriteFile),
            b"fault 73 WriteFile",
        ),
        (
            ActionFault::Printer(text),
            b"printer 9 isn't there: 9=file:x",
        ),
        (
            ActionFault::Places(PlacesFault::NotToml),
            b"fault 50 NotToml",
        ),
        (
            ActionFault::Places(PlacesFault::WrongType),
            b"fault 52 WrongType queue.places",
        ),
    ];
    for (fault, wanted) in faults {
        let text = fault.to_string(alloc).expect(&rt, "memory");
        expect(&rt, b"a fault", text.as_bytes(), wanted);
    }
}
