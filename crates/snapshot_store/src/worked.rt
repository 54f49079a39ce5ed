ghost use Rattle.std.specs.Prelude.{◌≡◌, [], length, take, slice_set};
ghost use Rattle.snapshot_file.specs.Examples.{six_vertices, sealed};
ghost use Rattle.snapshot_store.specs.State.{file_state};
ghost use Rattle.snapshot_store.specs.State.FileState.{nothing, other, damaged, last};
ghost use Rattle.snapshot_store.specs.Rows.{digest, one_vertex, kept, hundred_bytes, two_open, longer_file, sealed_file, damaged_file};

/// What some files stand for, computed.
pub fn worked_files()
    ensures size { length hundred_bytes ≡ 100 }
    ensures kept { file_state one_vertex digest hundred_bytes ≡ last (kept 1) }
    ensures longer { file_state one_vertex digest longer_file ≡ last (kept 1) }
    ensures empty { file_state one_vertex digest [] ≡ nothing }
    ensures ten_bytes { file_state one_vertex digest (take 10 hundred_bytes) ≡ nothing }
    ensures one_byte_less { file_state one_vertex digest (take 99 hundred_bytes) ≡ nothing }
    ensures closed_file { file_state one_vertex digest (slice_set hundred_bytes 0 0) ≡ nothing }
    ensures closed_slots { file_state one_vertex digest (slice_set hundred_bytes 82 0) ≡ nothing }
    ensures name { file_state one_vertex digest (slice_set hundred_bytes 3 0) ≡ damaged 3 }
    ensures zeros { file_state one_vertex digest (slice_set hundred_bytes 63 1) ≡ damaged 63 }
    ensures other_digest { file_state one_vertex (slice_set digest 31 0) hundred_bytes ≡ other digest }
    ensures other_comes_first { file_state one_vertex (slice_set digest 31 0) (take 64 hundred_bytes) ≡ other digest }
    ensures larger_epoch { file_state one_vertex digest two_open ≡ last (kept 2) }
    ensures equal_epochs { file_state one_vertex digest (slice_set two_open 72 1) ≡ damaged 65 }
    ensures sealed_size { length sealed_file ≡ 312 }
    ensures sealed { file_state six_vertices digest sealed_file ≡ last sealed }
    ensures damaged_size { length damaged_file ≡ 312 }
    ensures damaged { file_state six_vertices digest damaged_file ≡ damaged 197 }
{}
