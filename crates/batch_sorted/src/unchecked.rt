// The caller lends a slice of the list's length.
ghost use Rattle.std.specs.Prelude.{◌≡◌, length};
ghost use Rattle.batch_sorted.specs.Sorted.{sorted};

// The list in ascending order goes into the slice.
pub fn put_sorted(list: &[u64], slice: &mut [u64])
    requires { length list.now ≡ length slice.old }
    ensures { slice.new ≡ sorted list.now }
{
    slice.copy_from_slice(list);
    slice.sort_unstable();
}
