// Bytes, copied.
ghost use Rattle.std.specs.Prelude.{◌≡◌, length};

// Copies bytes, one after the other. `copy_from_slice` is a call of memmove, and the archive for C asks a host for memcpy and
// memset alone: of this loop LLVM makes moves of 32 bytes at a time, or a call of memcpy.
pub fn copy(to: &mut [u8], from: &[u8])
    requires { length to.old ≡ length from.now }
    ensures { to.new ≡ from.now }
{
    for i in 0..from.len() {
        to[i] = from[i];
    }
}
