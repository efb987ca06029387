#![tactic(auto)]

// Runs of a pool, compared with plain lists.
#[cfg(test)]
mod tests {
    use arrayvec::ArrayVec;
    use ir::fault::Fault;
    use pool::pool::Pool;
    use std::process::Abort;
    use store::parts::{Head, ListMemory, PoolFault};

    // A refusal's number and detail.
    fn told(f: PoolFault) -> (u32, u32) {
        (f.number(), f.detail())
    }

    fn front(items: &[u32], n: usize) -> &[u32] {
        &items[..n.min(items.len())]
    }

    // A list of a pool holds n sevens.
    fn sevens(rt: &impl Abort, pool: &Pool<'_, u32>, l: u32, n: usize) {
        let items = pool.list(l).expect(rt, "no such list");
        assert_eq!(rt; items.len(), n);
        for x in items {
            assert_eq!(rt; *x, 7);
        }
    }

    const SIZES: [(u32, usize, u32); 6] = [
        (0, 4, 8),
        (1, 8, 16),
        (2, 16, 32),
        (3, 32, 64),
        (4, 64, 128),
        (5, 128, 256),
    ];

    // Fills a pool to its last cell with one list of each size, which are then full; frees and reuses each size.
    fn every_size(rt: &impl Abort, pool: &mut Pool<'_, u32>) {
        let items = [7u32; 129];
        assert_eq!(rt; pool.usable(), 252);
        assert_eq!(rt; pool.room_for(&[4, 8, 16, 32, 64, 128]), Ok(()));
        assert_eq!(rt;
            pool.room_for(&[128, 64, 32, 16, 8, 4, 0, 1]).map_err(told),
            Err((14, 4))
        );
        assert_eq!(rt;
            pool.room_for(&[4, 1073741825]).map_err(told),
            Err((14, 1073741825))
        );
        for (l, n, _) in SIZES {
            assert_eq!(rt; pool.write(l, front(&items, n)), Ok(()));
        }
        for (l, n, more) in SIZES {
            assert_eq!(rt; pool.push(l, 7).map_err(told), Err((14, more)));
            sevens(rt, pool, l, n);
        }
        assert_eq!(rt; pool.push(6, 7).map_err(told), Err((14, 4)));
        assert_eq!(rt;
            pool.write(6, front(&items, 129)).map_err(told),
            Err((14, 256))
        );
        for (l, _, _) in SIZES {
            assert_eq!(rt; pool.clear(l), Ok(()));
        }
        assert_eq!(rt; pool.room_for(&[128, 64, 32, 16, 8, 4]), Ok(()));
        for (l, n, _) in SIZES {
            assert_eq!(rt; pool.write(5 - l % 6, front(&items, n)), Ok(()));
        }
        for (l, n, _) in SIZES {
            sevens(rt, pool, 5 - l % 6, n);
        }
        assert_eq!(rt; pool.clear(2), Ok(()));
        assert_eq!(rt; pool.copy(1, 2).map_err(told), Err((14, 64)));
        assert_eq!(rt; pool.copy(2, 1), Ok(()));
        sevens(rt, pool, 1, 0);
        assert_eq!(rt; pool.copy(0, 8).map_err(told), Err((1, 8)));
        assert_eq!(rt; pool.set(5, 4, 7).map_err(told), Err((1, 4)));
    }

    #[test]
    fn sizes(rt: HostRuntime) {
        let mut cells = [0u32; 255];
        let mut chains = [0u32; 63];
        let mut heads = [Head::EMPTY; 8];
        let mut pool = Pool::new(ListMemory {
            cells: &mut cells,
            chains: &mut chains,
            heads: &mut heads,
        });
        every_size(&rt, &mut pool);
    }

    // A plain list of up to 16 items.
    type Plain = ArrayVec<u32, 16>;

    fn same(rt: &impl Abort, pool: &Pool<'_, u32>, plain: &[Plain; 3]) {
        for (l, list) in plain.iter().enumerate() {
            let items = pool.list(l as u32).expect(rt, "no such list");
            assert_eq!(rt; items, list.as_slice());
        }
    }

    // One call on both, by the bits of a number. A list of 16 items gets no more.
    fn step(pool: &mut Pool<'_, u32>, plain: &mut [Plain; 3], seed: u32) {
        let l = (seed >> 16) % 3;
        let i = (seed >> 8) % 8;
        let list = &mut plain[l as usize];
        match seed >> 29 {
            0 => {
                if pool.remove(l, i).is_ok() {
                    list.pop_at(i as usize);
                }
            }
            1 => {
                if pool.swap_remove(l, i).is_ok() {
                    list.swap_pop(i as usize);
                }
            }
            2 => {
                if i == 0 && pool.clear(l).is_ok() {
                    list.clear();
                }
            }
            _ => {
                if !list.is_full() && pool.push(l, seed).is_ok() {
                    list.push(seed);
                }
            }
        }
    }

    fn steps(rt: &impl Abort, pool: &mut Pool<'_, u32>, plain: &mut [Plain; 3]) {
        let mut seed = 1u32;
        for _ in 0..2000 {
            seed = seed.wrapping_mul(1664525).wrapping_add(1013904223);
            step(pool, plain, seed);
            same(rt, pool, plain);
        }
    }

    #[test]
    fn plain_lists(rt: HostRuntime) {
        let mut cells = [0u32; 48];
        let mut chains = [0u32; 12];
        let mut heads = [Head::EMPTY; 3];
        let mut pool = Pool::new(ListMemory {
            cells: &mut cells,
            chains: &mut chains,
            heads: &mut heads,
        });
        let mut plain = [Plain::new(), Plain::new(), Plain::new()];
        steps(&rt, &mut pool, &mut plain);
    }
}
