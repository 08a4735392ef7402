// The files of a region.
ghost use Rattle.std.specs.Prelude.{◌≡◌};
ghost use Rattle.px_wal.specs.Files.{file_of};

/// How many local files a region has.
const LOCAL_FILES: u64 = 4_294_967_296;

/// A local file of a region.
pub fn local_file(region: u32, local: u32) -> u64
    ensures { result ≡ file_of region local }
{
    region as u64 * LOCAL_FILES + local as u64
}
