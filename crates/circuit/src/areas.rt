// Question 7: are there at most 8 Queues, and are the areas large enough for them?
ghost use Rattle.std.specs.Prelude.{◌≡◌, true, ◌&&◌, ◌*◌, max, leb};
ghost use Rattle.words.specs.Words.{words};
ghost use Rattle.model.specs.Circuit.{circuit as circuit_of};
ghost use Rattle.model.specs.Questions.{question_1, queues};
ghost use Rattle.links.specs.Lent.{least_area};

use super::columns::Column;
use words::get;

// The least bytes of an area; of the delays, for each Queue.
const AREA: usize = 65536;

// How many Queues a circuit has.
pub fn queues(circuit: &[u8]) -> usize
    requires { question_1 circuit.now (words circuit.now) ≡ true }
    ensures { result ≡ queues (circuit_of (words circuit.now)) }
{
    let gates = Column {
        area: circuit,
        first: 4 + 2 * get(circuit, 1) as usize,
        count: get(circuit, 0) as usize,
    };
    gates.passing(kinds::is_queue)
}

// Whether these are few enough Queues.
pub fn few_queues(queues: usize) -> bool
    ensures { result ≡ leb queues 8 }
{
    queues <= 8
}

// Whether these are few enough Queues, and areas of these lengths large enough for them.
pub fn enough(queues: usize, values: usize, units: usize, delays: usize) -> bool
    ensures { result ≡ (leb queues 8 && leb least_area values && leb least_area units && leb (least_area * max 1 queues) delays) }
{
    few_queues(queues) && AREA <= values && AREA <= units && AREA * queues.max(1) <= delays
}
