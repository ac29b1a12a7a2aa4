// What a program compares with the header that it was built with, before its first call.
ghost use Rattle.std.specs.Prelude.{◌≡◌};
ghost use Rattle.call_version.specs.Version.{version_number, board_bytes};

// The library's version as one number.
#[unsafe(no_mangle)]
pub extern "C" fn bayboard_version() -> u32
    ensures { result ≡ version_number }
{
    call_exports::version::bayboard_version()
}

// The bytes of a board.
#[unsafe(no_mangle)]
pub extern "C" fn bayboard_size() -> usize
    ensures { result ≡ board_bytes }
{
    call_exports::version::bayboard_size()
}
