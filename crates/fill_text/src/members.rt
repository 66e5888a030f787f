// The members of clusters.
ghost use Rattle.std.specs.Prelude.{◌≡◌, ◌==◌, ◌&&◌, ◌<◌, length, map, get_or, filter, IfOk};
ghost use Rattle.fill_rules.specs.Nodes.{firsts_from};
ghost use Rattle.output_rules.specs.Reported.{members_of};
ghost use Rattle.fill_text.specs.Inner.Alike.{AreSmallLabels, IsNextNumber};

use grid_num::Memory;
use output_rules::Cluster;
use std::alloc::Global;

/// For each place the next one with the same label; the number of labels where there is none.
pub fn next_alike(alloc: Global, labels: &[u32]) -> Result<Vec<u32>, Memory>
    requires { AreSmallLabels labels.now }
    ensures { IfOk result (λ next. IsNextNumber labels.now next.items) }
{
    let count = u32::try_from(labels.len()).map_err(|_| Memory)?;
    let mut seen = vec![in alloc; count; labels.len()]?;
    let mut next = vec![in alloc; count; labels.len()]?;
    let mut k = count;
    'each: while k > 0 {
        k -= 1;
        let label = labels[k as usize] as usize;
        next[k as usize] = seen[label];
        seen[label] = k;
    }
    Ok(next)
}

/// The clusters of a net, by their labels, each as its nodes.
pub fn clusters_of(
    alloc: Global,
    labels: &[u32],
    nets: &[u32],
    next: &[u32],
    net: u32,
) -> Result<Vec<Cluster>, Memory>
    requires labels { AreSmallLabels labels.now }
    requires next { IsNextNumber labels.now next.now }
    requires nets { length nets.now ≡ length labels.now }
    ensures { IfOk result (λ v. v.items ≡ map (members_of labels.now) (filter (λ k. get_or nets.now k 0 == net) (firsts_from 0 labels.now))) }
{
    let mut clusters = Vec::new(alloc);
    'each: for k in 0..labels.len() {
        if is_first(labels[k], k, nets[k], net) {
            clusters.push(cluster_of(alloc, labels, next, labels[k])?)?;
        }
    }
    Ok(clusters)
}

// Whether node k is the least of its cluster, and of the net.
fn is_first(label: u32, k: usize, own: u32, net: u32) -> bool
    ensures { result ≡ (label == k && own == net) }
{
    label as usize == k && own == net
}

// The nodes with this label, which is the least of them.
fn cluster_of(alloc: Global, labels: &[u32], next: &[u32], label: u32) -> Result<Cluster, Memory>
    requires labels { AreSmallLabels labels.now }
    requires next { IsNextNumber labels.now next.now }
    requires there { label < length labels.now }
    requires first { get_or labels.now label 0 ≡ label }
    ensures { IfOk result (λ c. c ≡ members_of labels.now label) }
{
    let mut members = Vec::new(alloc);
    let mut at = label;
    'each: while (at as usize) < next.len() {
        members.push(at)?;
        at = next[at as usize];
    }
    Ok(Cluster::of(members))
}
