use crate::{HEAD_LENGTH, HeadFault, read_head, write_head};

#[test]
fn heads_are_written_and_read(rt: HostRuntime) {
    let rows: [(&[u8; HEAD_LENGTH], Result<u32, HeadFault>); 7] = [
        (b"hurgwaye 1 7f000001\n", Ok(0x7f00_0001)),
        (b"hurgwaye 1 00000000\n", Ok(0)),
        (b"hurgwaye 1 ffffffff\n", Ok(0xffff_ffff)),
        (b"hurgwaye 2 7f000001\n", Err(HeadFault::OtherVersion)),
        (b"hurgwaye 1 7F000001\n", Err(HeadFault::NoHead)),
        (b"hurgwaye 1 7f000001 ", Err(HeadFault::NoHead)),
        (b"\x02lp\n\x035 dfA001h1\nhell", Err(HeadFault::NoHead)),
    ];
    for (octets, wanted) in rows {
        assert_eq!(rt; read_head(octets), wanted);
        if let Ok(sender) = wanted {
            assert_eq!(rt; write_head(sender), *octets);
        }
    }
}
