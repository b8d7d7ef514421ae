// The adapters over the real system.
ghost use Rattle.std.specs.Prelude.{◌≡◌};

use crate::{DiskFolder, Stream};
use outside::{Folder, Piece, Sink, Wrote};
use std::fs;

#[test]
fn an_absent_file_and_a_folder_fail_and_are_counted(rt: HostRuntime) {
    let mut folder = DiskFolder::new(&rt);
    let mut buffer = [0u8; 8];
    for name in ["no such file", "/", "/dev"] {
        let piece = folder.read_piece(name, 0, &mut buffer);
        assert_eq!(rt; piece, Piece::Failed, "{name}");
    }
    assert_eq!(rt; folder.read_piece("/dev/null", 0, &mut buffer), Piece::End);
    assert_eq!(rt;
        folder.read_piece("/dev/zero", 0, &mut buffer),
        Piece::Got(8)
    );
}

#[test]
fn a_name_that_is_too_long_fails(rt: HostRuntime) {
    let slashes = [b'/'; 4096];
    let longest = std::str::from_utf8(&slashes[..4095]).unwrap_or("");
    let longer = std::str::from_utf8(&slashes).unwrap_or("");
    let mut folder = DiskFolder::new(&rt);
    let mut buffer = [0u8; 8];
    for name in [longest, longer, longest] {
        assert_eq!(rt; folder.read_piece(name, 0, &mut buffer), Piece::Failed);
    }
    assert_eq!(rt;
        folder.read_piece("/dev/zero", 0, &mut buffer),
        Piece::Got(8)
    );
}

#[test]
fn a_full_disk_fails_and_a_sink_without_a_bottom_takes_all(rt: HostRuntime) -> std::io::Result<()> {
    let mut full = Stream::new(fs::create(&rt, "/dev/full")?);
    assert_eq!(rt; full.write(b"a few bytes"), Wrote::Failed);
    let mut null = Stream::new(fs::create(&rt, "/dev/null")?);
    assert_eq!(rt; null.write(b"a few bytes"), Wrote::Took(11));
    Ok(())
}
