use crate::number::read_number;

#[test]
fn numbers(rt: HostRuntime) {
    assert!(rt; read_number(b"0") == Some(0));
    assert!(rt; read_number(b"-7") == Some(-7));
    assert!(rt; read_number(b"9999999999") == Some(9_999_999_999));
    assert!(rt; read_number(b"-9999999999") == Some(-9_999_999_999));
    assert!(rt; read_number(b"10000000000") == None);
    assert!(rt; read_number(b"") == None);
    assert!(rt; read_number(b"-") == None);
    assert!(rt; read_number(b"-0") == None);
    assert!(rt; read_number(b"07") == None);
    assert!(rt; read_number(b"+1") == None);
    assert!(rt; read_number(b"7\r") == None);
}
