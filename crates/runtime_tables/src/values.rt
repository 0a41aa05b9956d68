//! Values and lengths in the bytes of a frame.

use edl_interface::{Amount, Class, Function, Param, Plain};
use sgx_base::{Name, Passing};
use sqlite_items::Items;
use std::alloc::{AllocError, Global};

const FRAME: [u8; 24] = [
    0, 0, 0, 0, 0, 0, 0, 0, 16, 1, 0, 0, 0, 0, 0, 0, 254, 0, 0, 0, 0, 0, 0, 0,
];

/// A buffer of as many bytes as a signed number of one byte says.
fn function(alloc: Global) -> Result<Function, AllocError> {
    let mut params = Items::new(alloc);
    params.push(Param {
        name: Name::new(alloc, b"buf")?,
        offset: 8,
        class: Class::Buffer {
            way: Passing::Both,
            size: Amount::Param(1),
            count: Amount::Number(1),
            unit: 1,
        },
    })?;
    params.push(Param {
        name: Name::new(alloc, b"len")?,
        offset: 16,
        class: Class::Plain(Plain {
            size: 1,
            integer: true,
            signed: true,
        }),
    })?;
    Ok(Function {
        name: Name::new(alloc, b"f")?,
        is_public: true,
        switchless: false,
        ret: None,
        params,
        allow: Items::new(alloc),
        frame_size: 24,
    })
}

#[test]
fn reads_a_frame(rt: HostRuntime) {
    let function = function(rt.alloc()).expect(&rt, "memory");
    let buffer = function.params.get(0).expect(&rt, "a parameter");
    let number = function.params.get(1).expect(&rt, "two parameters");
    assert_eq!(rt; buffer.address(&FRAME), 0x110);
    assert_eq!(rt; number.field(&FRAME), [254].as_slice());
    assert_eq!(rt;
        function.length(&FRAME, buffer),
        Some(0xffff_ffff_ffff_fffe)
    );
    assert_eq!(rt; function.copied_length(&FRAME[..8], buffer), Some(0));
    assert_eq!(rt; (function.has_frame(), function.return_size()), (true, 0));
    assert_eq!(rt;
        (
            buffer.class.is_in(),
            buffer.class.is_out(),
            buffer.class.unit()
        ),
        (true, true, 1)
    );
    assert_eq!(rt;
        (buffer.class.is_marshalled(), number.class.is_text()),
        (true, false)
    );
}
