// The first places of classes. Octagons stand at places, each is of a stack, and each stack is of a class.
ghost use Rattle.std.specs.Prelude.{◌≡◌, length, IfOk};
ghost use Rattle.islands.specs.Inner.Firsts.{AreClasses, AreFirstOf, AreFirstPlaces};

use grid_num::Memory;
use std::alloc::Global;

// For each place the first place of its class, given the stack of each place and the class of each stack.
pub fn first_places(alloc: Global, places: &[u32], classes: &[u32]) -> Result<Vec<u32>, Memory>
    requires { AreClasses places.now classes.now }
    ensures { IfOk result (λ labels. AreFirstPlaces places.now classes.now labels.items) }
{
    let firsts = firsts_of(alloc, places, classes)?;
    let mut labels = Vec::new(alloc);
    'each: for stack in places {
        let class = classes[*stack as usize];
        labels.push(firsts[class as usize])?;
    }
    Ok(labels)
}

// For each class the first place of it, if there is one. From the last place on, a place takes the one behind it away.
fn firsts_of(alloc: Global, places: &[u32], classes: &[u32]) -> Result<Vec<u32>, Memory>
    requires { AreClasses places.now classes.now }
    ensures { IfOk result (λ firsts. AreFirstOf places.now classes.now 0 firsts.items) }
{
    let mut firsts = vec![in alloc; 0; classes.len()]?;
    let mut n = count_of(places)?;
    'each: while n > 0 {
        n -= 1;
        let class = classes[places[n as usize] as usize];
        firsts[class as usize] = n;
    }
    Ok(firsts)
}

// How many places there are, where a label can tell them.
fn count_of(places: &[u32]) -> Result<u32, Memory>
    ensures { IfOk result (λ count. count ≡ length places.now) }
{
    u32::try_from(places.len()).map_err(|_| Memory)
}
