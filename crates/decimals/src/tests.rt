use crate::read_decimal;

#[test]
fn numbers_have_one_spelling(rt: HostRuntime) {
    let rows: [(&[u8], Option<u64>); 10] = [
        (b"0", Some(0)),
        (b"7", Some(7)),
        (b"4294967296", Some(4_294_967_296)),
        (b"18446744073709551615", Some(u64::MAX)),
        (b"18446744073709551616", None),
        (b"", None),
        (b"00", None),
        (b"07", None),
        (b"+7", None),
        (b"\xff7", None),
    ];
    for (digits, number) in rows {
        assert_eq!(rt; read_decimal(digits), number);
    }
}
