// Which interface this is.
ghost use Rattle.std.specs.Prelude.{◌≡◌};

const RELEASE: u32 = 3;

#[unsafe(no_mangle)]
pub extern "C" fn doorclover_release() -> u32
    ensures { result ≡ 3 }
{
    RELEASE
}
