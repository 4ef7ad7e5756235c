// Memory that is reserved before it is filled.
ghost use Rattle.std.specs.Prelude.{◌≡◌, true, IfOk, vec_len};
ghost use Rattle.program.specs.Form.{each};
ghost use Rattle.program.specs.Rooms.{spare_for};

use std::alloc::{AllocError, Global};

// So many empty vectors, each with room for so many elements.
pub fn spares<T: Drop>(heap: Global, rows: usize, places: usize) -> Result<Vec<Vec<T>>, AllocError>
    ensures rows { IfOk result (λ v. vec_len v ≡ rows) }
    ensures spare { IfOk result (λ v. each (spare_for places) v.items ≡ true) }
{
    let mut spares = Vec::with_capacity(heap, rows)?;
    for _ in 0..rows {
        spares.push_reserved(Vec::with_capacity(heap, places)?);
    }
    Ok(spares)
}

#[cfg(test)]
mod tests {
    use super::spares;
    use std::test::Fail;

    #[test]
    fn two_rows_of_three(rt: HostRuntime) -> Result<(), Fail> {
        let rows: Vec<Vec<u8>> = spares(rt.alloc(), 2, 3)?;
        assert_eq!(rt; rows.len(), 2);
        for row in &rows {
            assert!(rt; row.is_empty());
            assert!(rt; row.capacity() >= 3);
        }
        Ok(())
    }
}
