//! What tests compare. What differs ends the test, and is printed.

ghost use Rattle.std.specs.Prelude.{◌≡◌, Ok};

use std::fmt::Debug;
use std::process::Abort;

/// The two are the same.
pub fn same<R: Abort, T: PartialEq + Debug + Drop>(rt: &R, got: T, want: T) {
    assert_eq!(rt; got, want);
}

/// The value that was answered, where no error was.
pub fn ok<R: Abort, T, E: Debug>(rt: &R, got: Result<T, E>) -> T
    ensures { got ≡ Ok result }
{
    got.expect(rt, "an error was answered")
}
