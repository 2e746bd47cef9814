//! Codes of calls, against the numbers and names of `xa.h`.

use xa_codes::{Code, Flags};

#[test]
fn codes(rt: HostRuntime) {
    for (code, number, name) in [
        (Code::RbRollback, 100, "XA_RBROLLBACK"),
        (Code::RbTransient, 107, "XA_RBTRANSIENT"),
        (Code::NoMigrate, 9, "XA_NOMIGRATE"),
        (Code::HeurMix, 5, "XA_HEURMIX"),
        (Code::Ok, 0, "XA_OK"),
        (Code::Outside, -9, "XAER_OUTSIDE"),
    ] {
        assert_eq!(rt; code.number(), number);
        assert!(rt; Code::from_number(number) == Some(code));
        assert_eq!(rt; code.name(), name);
    }
    assert!(rt; Code::from_number(-1).is_none());
    assert!(rt; Code::RbProto.is_rollback());
    assert!(rt; Code::HeurHaz.is_heuristic());
}

#[test]
fn flags(rt: HostRuntime) {
    assert!(rt; Flags::parse("TMSUSPEND+TMMIGRATE") == Some(Flags(0x0210_0000)));
    assert!(rt; Flags::parse("TMUSEASYNC+TMASYNC") == Some(Flags(0x8000_0004)));
}
