//! Queues of cells, each with a link to the next.
ghost use Rattle.std.specs.Prelude.{◌≡◌, ◌<◌, length, replicate, ◌≢◌, IfSome, slice_index, slice_set};
ghost use Rattle.std.specs.Option.{SomeIff};
ghost use Rattle.grid.specs.Flows.{sum_below};
ghost use Rattle.pool.specs.Queues.{first_cells, last_cells, lengths, cell_in, Cells, OneQueue, OnePlace, Ended, Shifted};

use std::array;

// The first and the last cell of a queue, and how many cells it has.
#[derive(Clone, Copy, Default)]
struct Queue {
    first: usize,
    last: usize,
    count: usize,
}

// 512 cells in 257 queues: every cell stands in one queue. The links are numbers of cells, since no store allocates.
#[derive(Drop)]
pub(crate) struct Links {
    next: [usize; 512],
    queues: [Queue; 257],
    ghost long: { length queues ≡ 257 },
    ghost nexts: { Cells next },
    ghost firsts: { Cells (first_cells queues) },
    ghost lasts: { Cells (last_cells queues) },
    ghost queued: { OneQueue next (first_cells queues) (lengths queues) },
    ghost places: { OnePlace next (first_cells queues) (lengths queues) },
    ghost ended: { Ended next (first_cells queues) (last_cells queues) (lengths queues) },
    ghost total: { sum_below 257 (λ q. slice_index (lengths queues) q) ≡ 512 },
}

// The last queue: that of the cells that hold nothing.
pub(crate) const FREE: usize = 256;

// A queue is asked by its number, below 257: a type for it would have to be made of a flow, and of FREE, at each call.
impl Links {
    // All cells free, in order.
    pub(crate) fn new() -> Links
        ensures { lengths result.queues ≡ slice_set (replicate 257 0) 256 512 }
    {
        let mut queues = [Queue::default(); 257];
        queues[FREE] = Queue {
            first: 0,
            last: 511,
            count: 512,
        };
        Links {
            next: array::from_fn(|cell| (cell + 1) % 512),
            queues,
        }
    }

    // How many cells a queue has.
    pub(crate) fn len(&self, queue: usize) -> usize
        requires { queue < 257 }
        ensures { result ≡ slice_index (lengths self.now.queues) queue }
    {
        self.queues[queue].count
    }

    // The k-th cell of a queue, found in k steps.
    pub(crate) fn at(&self, queue: usize, k: usize) -> Option<usize>
        requires { queue < 257 }
        ensures is { SomeIff result (k < slice_index (lengths self.now.queues) queue) (cell_in self.now.next (first_cells self.now.queues) queue k) }
        ensures small { IfSome result (λ cell. cell < 512) }
    {
        let Queue { first, count, .. } = self.queues[queue];
        if k >= count {
            return None;
        }
        // tried as a fold: that each cell which its closure is handed is one of the 512 stayed open; the loop has it as invariant
        let mut cell = first;
        for _ in 0..k {
            cell = self.next[cell];
        }
        Some(cell)
    }

    // Moves the first cell of one queue to the end of another.
    pub(crate) fn shift(&mut self, from: usize, to: usize)
        requires source { from < 257 }
        requires target { to < 257 }
        requires other { from ≢ to }
        requires some { 0 < slice_index (lengths self.old.queues) from }
        ensures { Shifted self.old.next (first_cells self.old.queues) (lengths self.old.queues) self.new.next (first_cells self.new.queues) (lengths self.new.queues) from to }
    {
        let source = self.queues[from];
        let cell = source.first;
        self.queues[from] = Queue {
            first: self.next[cell],
            count: source.count - 1,
            ..source
        };
        let target = self.queues[to];
        let first = if target.count == 0 {
            cell
        } else {
            self.next[target.last] = cell;
            target.first
        };
        self.queues[to] = Queue {
            first,
            last: cell,
            count: target.count + 1,
        };
    }
}
