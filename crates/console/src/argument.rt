// The program's arguments: `text` and `as-text`, in either order.
use std::env::{Env, FillError};

#[derive(Clone, Copy, Default)]
pub struct Arguments {
    pub text: bool,
    pub as_text: bool,
}

// What no argument, one or two ask for; nothing if there are more, or others.
pub fn all<R: Env>(rt: &R) -> Option<Arguments> {
    let mut given = Arguments::default();
    for i in 1..3 {
        let mut bytes = [0u8; 8];
        let n = match rt.arg(i, &mut bytes) {
            Ok(n) => n,
            Err(FillError::TooLong) => return None,
            Err(FillError::NotPresent) => return Some(given),
        };
        match &bytes[..n] {
            b"text" => given.text = true,
            b"as-text" => given.as_text = true,
            _ => return None,
        }
    }
    let mut none = [0u8; 1];
    matches!(rt.arg(3, &mut none), Err(FillError::NotPresent)).then_some(given)
}
